ghost use Rattle.std.specs.Prelude.{◌≡◌, ◌&&◌, int_le, length, IfOk};
ghost use Rattle.nim_base.specs.Functions.{at_column, keep_of, param_at};

use crate::rows::{cell_in_column, no_rows, push_if, row_of};
use nim_base::{NoMemory, Value};
use std::alloc::Global;

/// Whether the cell at the column is at least `low` and at most `high`.
fn is_within(row: &[i64], column: i64, low: i64, high: i64) -> bool
    ensures { result ≡ (int_le low (at_column column row.now) && int_le (at_column column row.now) high) }
{
    let cell = cell_in_column(row, column);
    low <= cell && cell <= high
}

/// The rows whose cell at the column is at least `low` and at most `high`, in order.
fn keep(alloc: Global, value: &Value, column: i64, low: i64, high: i64) -> Result<Value, NoMemory>
    ensures { IfOk result (λ rows. rows ≡ keep_of column low high value.now) }
{
    let mut rows = no_rows(alloc, value);
    for at in 0..value.rows() as usize {
        let row = row_of(value, at);
        push_if(&mut rows, row, is_within(row, column, low, high))?;
    }
    Ok(rows)
}

/// The same, by the parameters `column`, `low` and `high`.
pub fn keep_by(alloc: Global, value: &Value, params: &[i64]) -> Result<Value, NoMemory>
    requires { length params.now ≡ 3 }
    ensures { IfOk result (λ rows. rows
        ≡ keep_of (param_at params.now 0) (param_at params.now 1) (param_at params.now 2) value.now) }
{
    keep(alloc, value, params[0], params[1], params[2])
}
