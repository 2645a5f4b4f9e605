ghost use Rattle.std.specs.Prelude.{◌≡◌, ◌++◌, ℤ, length, map, IfOk, OnOk};
ghost use Rattle.std.specs.List.{zip};
ghost use Rattle.std.specs.Int.{int_wrapping_add, int_wrapping_sub, int_max, w64};
ghost use Rattle.nim_base.specs.Functions.{cell_at, pairwise, row_by, add_of, sub_of, max_of};

use crate::rows::{cell_or_zero, row_of, width_of};
use nim_base::{NoMemory, Value};
use std::alloc::Global;

/// What is made of two cells of the same place.
trait Pairing {
    ghost pair: { ℤ → ℤ → ℤ };

    fn of_cells(first: i64, second: i64) -> i64
        ensures { result ≡ Self.pair first second };
}

struct Plus;

impl Pairing for Plus {
    ghost pair = { int_wrapping_add w64 };

    fn of_cells(first: i64, second: i64) -> i64 {
        first.wrapping_add(second)
    }
}

struct Minus;

impl Pairing for Minus {
    ghost pair = { int_wrapping_sub w64 };

    fn of_cells(first: i64, second: i64) -> i64 {
        first.wrapping_sub(second)
    }
}

struct Greater;

impl Pairing for Greater {
    ghost pair = { int_max };

    fn of_cells(first: i64, second: i64) -> i64 {
        if second < first { first } else { second }
    }
}

/// Adds the cells of one row, from the rows at its place.
#[tactic(auto, using(crate::proofs::CellRows::row_more))]
fn push_pairs<P: Pairing>(
    cells: &mut Vec<i64>,
    first: &[i64],
    second: &[i64],
    width: u32,
) -> Result<(), NoMemory>
    ensures { OnOk result (cells.new.items ≡ cells.old.items ++ row_by width (λ column.
        P.pair (cell_at first.now column) (cell_at second.now column))) }
{
    for column in 0..width as usize {
        cells.push(P::of_cells(cell_or_zero(first, column), cell_or_zero(second, column)))?;
    }
    Ok(())
}

/// What is made of the cells of the same place of two equal shapes.
fn cells_of_pairs<P: Pairing>(
    alloc: Global,
    first: &[i64],
    second: &[i64],
) -> Result<Vec<i64>, NoMemory>
    ensures { IfOk result (λ cells. cells.items
        ≡ map (λ places. P.pair places.0 places.1) (zip first.now second.now)) }
{
    let cells = first
        .iter()
        .zip(second)
        .map(|(one, other)| P::of_cells(*one, *other))
        .collect(alloc)?;
    Ok(cells)
}

/// One value from two of the same shape.
fn paired_alike<P: Pairing>(alloc: Global, first: &Value, second: &Value) -> Result<Value, NoMemory>
    requires rows { length first.now.rows ≡ length second.now.rows }
    requires width { first.now.width ≡ second.now.width }
    ensures { IfOk result (λ made. made ≡ pairwise P.pair first.now second.now) }
{
    let cells = cells_of_pairs::<P>(alloc, first.cells(), second.cells())?;
    Ok(Value::from_cells(first.width(), first.rows(), cells))
}

/// One value from two of any shapes; rows and width are the greater of the two.
#[tactic(auto, using(crate::proofs::CellRows::grid_more))]
fn paired_apart<P: Pairing>(alloc: Global, first: &Value, second: &Value) -> Result<Value, NoMemory>
    ensures { IfOk result (λ made. made ≡ pairwise P.pair first.now second.now) }
{
    let rows = first.rows().max(second.rows());
    let width = width_of(first).max(width_of(second));
    let mut cells = Vec::with_capacity(alloc, rows as usize * width as usize)?;
    for row in 0..rows as usize {
        push_pairs::<P>(&mut cells, row_of(first, row), row_of(second, row), width)?;
    }
    Ok(Value::from_cells(width, rows, cells))
}

/// One value from two, by the cells of the same place. Equal shapes take one walk over the cells.
fn paired<P: Pairing>(alloc: Global, first: &Value, second: &Value) -> Result<Value, NoMemory>
    ensures { IfOk result (λ made. made ≡ pairwise P.pair first.now second.now) }
{
    if first.rows() == second.rows() && first.width() == second.width() {
        paired_alike::<P>(alloc, first, second)
    } else {
        paired_apart::<P>(alloc, first, second)
    }
}

/// The sums of the cells of the same place.
pub fn add(alloc: Global, first: &Value, second: &Value) -> Result<Value, NoMemory>
    ensures { IfOk result (λ sums. sums ≡ add_of first.now second.now) }
{
    paired::<Plus>(alloc, first, second)
}

/// The cells of the first minus those of the second.
pub fn sub(alloc: Global, first: &Value, second: &Value) -> Result<Value, NoMemory>
    ensures { IfOk result (λ differences. differences ≡ sub_of first.now second.now) }
{
    paired::<Minus>(alloc, first, second)
}

/// The greater of the cells of the same place.
pub fn max(alloc: Global, first: &Value, second: &Value) -> Result<Value, NoMemory>
    ensures { IfOk result (λ greater. greater ≡ max_of first.now second.now) }
{
    paired::<Greater>(alloc, first, second)
}
