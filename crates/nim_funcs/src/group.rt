ghost use Rattle.std.specs.Prelude.{◌≡◌, ◌≤◌, ◌<◌, pos, length, All, IfOk, OnOk};
ghost use Rattle.std.specs.List.{flat_map};
ghost use Rattle.nim_base.specs.Functions.{group_of, merge_of, param_at, read_values};
ghost use Rattle.nim_funcs.specs.Groups.{sum_under, sums_grid, with_rows, with_summand};

use crate::rows::{cell_in_column, row_of};
use nim_base::{NoMemory, Value};
use std::alloc::Global;
use std::collections::BTreeMap;

/// The sum under a key, 0 where there is none.
fn sum_so_far(sums: &BTreeMap<i64, i64>, key: i64) -> i64
    ensures { result ≡ sum_under sums.now.entries key }
{
    match sums.get(&key) {
        Some(sum) => *sum,
        None => 0,
    }
}

/// One more summand under a key; a sum wraps.
fn add_summand(sums: &mut BTreeMap<i64, i64>, key: i64, summand: i64) -> Result<(), NoMemory>
    ensures { OnOk result (sums.new.entries ≡ with_summand sums.old.entries key summand) }
{
    let sum = sum_so_far(sums, key).wrapping_add(summand);
    sums.insert(key, sum)?;
    Ok(())
}

/// Adds the cell of each row at one column under its cell at another.
fn add_rows(
    sums: &mut BTreeMap<i64, i64>,
    value: &Value,
    column: i64,
    summed: i64,
) -> Result<(), NoMemory>
    ensures { OnOk result (sums.new.entries ≡ with_rows column summed sums.old.entries value.now.rows) }
{
    for at in 0..value.rows() as usize {
        let row = row_of(value, at);
        add_summand(
            sums,
            cell_in_column(row, column),
            cell_in_column(row, summed),
        )?;
    }
    Ok(())
}

/// Rows of two cells: each key, ascending, and its sum. More rows than a value counts are want of memory.
fn rows_of_sums(alloc: Global, sums: &BTreeMap<i64, i64>) -> Result<Value, NoMemory>
    ensures { IfOk result (λ rows. rows ≡ sums_grid sums.now.entries) }
{
    let Ok(rows) = u32::try_from(sums.len()) else {
        return Err(NoMemory);
    };
    let mut cells = Vec::with_capacity(alloc, 2 * rows as usize)?;
    for (key, sum) in sums {
        cells.push(*key)?;
        cells.push(*sum)?;
    }
    Ok(Value::from_cells(2, rows, cells))
}

/// Rows of two cells: each different value of a column, ascending, and the sum of another over its rows.
fn group(alloc: Global, value: &Value, column: i64, summed: i64) -> Result<Value, NoMemory>
    ensures { IfOk result (λ rows. rows ≡ group_of column summed value.now) }
{
    let mut sums = BTreeMap::new(alloc);
    add_rows(&mut sums, value, column, summed)?;
    rows_of_sums(alloc, &sums)
}

/// The same, by the parameters `column` and `summed`.
pub fn group_by(alloc: Global, value: &Value, params: &[i64]) -> Result<Value, NoMemory>
    requires { length params.now ≡ 2 }
    ensures { IfOk result (λ rows. rows
        ≡ group_of (param_at params.now 0) (param_at params.now 1) value.now) }
{
    group(alloc, value, params[0], params[1])
}

/// The rows of all reads, grouped by the first cell, with the sum of the second.
pub fn merge(alloc: Global, values: &[Value], reads: &[usize]) -> Result<Value, NoMemory>
    requires { All (λ index. index < length values.now) reads.now }
    ensures { IfOk result (λ rows. rows ≡ merge_of (read_values values.now reads.now)) }
{
    let mut sums = BTreeMap::new(alloc);
    for index in reads {
        add_rows(&mut sums, &values[*index], 0, 1)?;
    }
    rows_of_sums(alloc, &sums)
}
