ghost use Rattle.std.specs.Prelude.{◌≡◌, ◌≤◌, IfOk, pos};
ghost use Rattle.std.specs.Int.{int_wrapping_add, w64};
ghost use Rattle.nim_base.specs.Value.{counting_up, iota_of};

use crate::{NoMemory, Shape, Value};
use std::alloc::Global;

impl Value {
    /// As many rows as the shape has, whose cells count up by 1 from the first, row by row; a sum
    /// wraps (`iota_of` in `specs/Value.antt`).
    pub fn iota(alloc: Global, shape: Shape, first: i64) -> Result<Value, NoMemory>
        requires { 1 ≤ shape.width }
        ensures { IfOk result (λ value. value ≡ iota_of shape first) }
    {
        let cells = count_up(alloc, shape.rows as usize * shape.width as usize, first)?;
        Ok(Value::from_cells(shape.width, shape.rows, cells))
    }
}

fn count_up(alloc: Global, count: usize, first: i64) -> Result<Vec<i64>, NoMemory>
    ensures { IfOk result (λ cells. cells.items ≡ counting_up count first) }
{
    let mut cells = Vec::with_capacity(alloc, count)?;
    let mut next = first;
    for _ in 0..count {
        cells.push(next)?;
        next = successor(next);
    }
    Ok(cells)
}

fn successor(number: i64) -> i64
    ensures { result ≡ int_wrapping_add w64 number (pos 1) }
{
    number.wrapping_add(1)
}
