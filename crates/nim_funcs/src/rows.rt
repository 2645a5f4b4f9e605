ghost use Rattle.std.specs.Prelude.{◌≡◌, ◌<◌, ◌≤◌, ◌-◌, ◌^◌, if◌then◌else◌, [], ◌∷◌, ◌++◌, length, OnOk};
ghost use Rattle.nim_base.specs.Functions.{at_column, cell_at, grid_row};

use nim_base::{NoMemory, Value};
use std::alloc::Global;

/// The width of a value, at least 1.
pub fn width_of(value: &Value) -> u32
    ensures width { result ≡ value.now.width }
    ensures wide { 1 ≤ result }
{
    let _cells = value.cells();
    value.width()
}

/// No rows of the width of a value; takes no memory.
pub fn no_rows(alloc: Global, value: &Value) -> Value
    ensures { result ≡ record value.now { rows = [] } }
{
    Value::new(alloc, width_of(value))
}

/// The cells of a row, none where there is no such row.
pub fn row_of(value: &Value, row: usize) -> &[i64]
    ensures cells { result.now ≡ grid_row value.now row }
    ensures whole { row < length value.now.rows → length result.now ≡ value.now.width }
{
    if row < value.rows() as usize {
        let width = value.width() as usize;
        let start = row * width;
        &value.cells()[start..start + width]
    } else {
        &[]
    }
}

/// The cell of a row, 0 where there is none.
pub fn cell_or_zero(row: &[i64], column: usize) -> i64
    ensures { result ≡ cell_at row.now column }
{
    if column < row.len() { row[column] } else { 0 }
}

/// The cell of a row at a column that may be any number, 0 where there is none.
pub fn cell_in_column(row: &[i64], column: i64) -> i64
    ensures { result ≡ at_column column row.now }
{
    if column < 0 {
        0
    } else {
        cell_or_zero(row, column as usize)
    }
}

/// Adds a row where it passes.
pub fn push_if(rows: &mut Value, row: &[i64], passes: bool) -> Result<(), NoMemory>
    requires width { length row.now ≡ rows.old.width }
    requires room { length rows.old.rows < 2 ^ 32 - 1 }
    ensures { OnOk result (rows.new
        ≡ record rows.old { rows = rows.old.rows ++ (if passes then row.now ∷ [] else []) }) }
{
    if passes {
        rows.push_row(row)?;
    }
    Ok(())
}
