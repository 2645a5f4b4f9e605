ghost use Rattle.std.specs.Prelude.{◌≡◌, int_lt, length, IfOk};
ghost use Rattle.nim_base.specs.Functions.{at_column, below_of, param_at, split_rest};

use crate::rows::{cell_in_column, no_rows, push_if, row_of};
use nim_base::{NoMemory, Value};
use std::alloc::Global;

/// Whether the cell at the column is less than the pivot.
fn is_below(row: &[i64], column: i64, pivot: i64) -> bool
    ensures { result ≡ int_lt (at_column column row.now) pivot }
{
    cell_in_column(row, column) < pivot
}

/// First the rows whose cell at the column is less than the pivot, second the others, each in order.
fn split(alloc: Global, value: &Value, column: i64, pivot: i64) -> Result<(Value, Value), NoMemory>
    ensures below { IfOk result (λ parts. parts.0 ≡ below_of column pivot value.now) }
    ensures rest { IfOk result (λ parts. parts.1 ≡ split_rest column pivot value.now) }
{
    let mut below = no_rows(alloc, value);
    let mut rest = no_rows(alloc, value);
    for at in 0..value.rows() as usize {
        let row = row_of(value, at);
        let is_less = is_below(row, column, pivot);
        push_if(&mut below, row, is_less)?;
        push_if(&mut rest, row, !is_less)?;
    }
    Ok((below, rest))
}

/// The same, by the parameters `column` and `pivot`.
pub fn split_by(alloc: Global, value: &Value, params: &[i64]) -> Result<(Value, Value), NoMemory>
    requires { length params.now ≡ 2 }
    ensures below { IfOk result (λ parts. parts.0
        ≡ below_of (param_at params.now 0) (param_at params.now 1) value.now) }
    ensures rest { IfOk result (λ parts. parts.1
        ≡ split_rest (param_at params.now 0) (param_at params.now 1) value.now) }
{
    split(alloc, value, params[0], params[1])
}
