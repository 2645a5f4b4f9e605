ghost use Rattle.std.specs.Prelude.{◌≡◌, ◌≤◌, ◌<◌, ℕ, length, fold, All, IfOk};
ghost use Rattle.nim_base.specs.Functions.{plus, read_values, sum_of_cells, total_of, count_of, single};

use nim_base::{NoMemory, Value};
use std::alloc::Global;

/// A value of one row of one cell.
fn one_cell(alloc: Global, cell: i64) -> Result<Value, NoMemory>
    ensures { IfOk result (λ value. value ≡ single cell) }
{
    let mut cells = Vec::with_capacity(alloc, 1)?;
    cells.push(cell)?;
    Ok(Value::from_cells(1, 1, cells))
}

/// A sum and all these cells.
fn sum_from(start: i64, cells: &[i64]) -> i64
    ensures { result ≡ fold plus start cells.now }
{
    cells
        .iter()
        .fold(start, |sum, cell| sum.wrapping_add(*cell))
}

/// The sum of all cells of all reads.
#[tactic(auto, using(crate::proofs::SoFar::total_more))]
pub fn total(alloc: Global, values: &[Value], reads: &[usize]) -> Result<Value, NoMemory>
    requires { All (λ index. index < length values.now) reads.now }
    ensures { IfOk result (λ value. value ≡ total_of (read_values values.now reads.now)) }
{
    let mut sum = 0;
    for index in reads {
        sum = sum_from(sum, values[*index].cells());
    }
    one_cell(alloc, sum)
}

/// The number of rows of all reads.
#[tactic(auto, using(crate::proofs::SoFar::count_more))]
pub fn count(alloc: Global, values: &[Value], reads: &[usize]) -> Result<Value, NoMemory>
    requires few { length reads.now ≤ 8 }
    requires inside { All (λ index. index < length values.now) reads.now }
    ensures { IfOk result (λ value. value ≡ count_of (read_values values.now reads.now)) }
{
    let mut rows: u64 = 0;
    for index in reads {
        rows += u64::from(values[*index].rows());
    }
    one_cell(alloc, rows as i64)
}
