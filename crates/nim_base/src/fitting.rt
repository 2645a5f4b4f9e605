ghost use Rattle.std.specs.Prelude.{◌≡◌, ◌++◌, ◌*◌, ◌≤◌, length, map, IfOk, OnOk};
ghost use Rattle.std.specs.List.{flat_map};
ghost use Rattle.nim_base.specs.Value.{fit_row, fitted, rows_of};

use crate::{NoMemory, Shape, Value};
use std::alloc::Global;

/// The value cut and padded to the shape of the object that it is written into: at most the
/// shape's rows, each as wide as the shape (`fitted` in `specs/Value.antt`).
pub fn fit(alloc: Global, value: &Value, shape: Shape) -> Result<Value, NoMemory>
    requires { 1 ≤ shape.width }
    ensures { IfOk result (λ fit. fit ≡ fitted value.now shape) }
{
    let rows = value.rows().min(shape.rows);
    let cells = fit_cells(alloc, value.cells(), rows, value.width(), shape.width)?;
    Ok(Value::from_cells(shape.width, rows, cells))
}

impl Value {
    /// The same as `fit`, where the value isn't needed any more: it keeps its buffer where the
    /// shape has its width.
    pub fn into_shape(self, shape: Shape) -> Result<Value, NoMemory>
        requires { 1 ≤ shape.width }
        ensures { IfOk result (λ fit. fit ≡ fitted self shape) }
    {
        let rows = self.rows().min(shape.rows);
        let width = self.width();
        let cells = fit_buffer(self.into_cells(), rows, width, shape.width)?;
        Ok(Value::from_cells(shape.width, rows, cells))
    }
}

/// The first rows of the cells, each cut or padded to the width `to`.
fn fit_buffer(mut cells: Vec<i64>, rows: u32, width: u32, to: u32) -> Result<Vec<i64>, NoMemory>
    requires { rows * width ≤ length cells.items }
    ensures { IfOk result (λ made. made.items ≡ flat_map (fit_row to) (rows_of rows width cells.items)) }
{
    if width == to {
        cells.truncate(rows as usize * width as usize);
        return Ok(cells);
    }
    fit_cells(*cells.allocator(), &cells, rows, width, to)
}

fn fit_cells(
    alloc: Global,
    cells: &[i64],
    rows: u32,
    width: u32,
    to: u32,
) -> Result<Vec<i64>, NoMemory>
    requires { rows * width ≤ length cells.now }
    ensures { IfOk result (λ made. made.items ≡ flat_map (fit_row to) (rows_of rows width cells.now)) }
{
    let mut made = Vec::with_capacity(alloc, rows as usize * to as usize)?;
    let mut rest = cells;
    for _ in 0..rows {
        let (row, more) = rest.split_at(width as usize);
        push_fitted(&mut made, row, to)?;
        rest = more;
    }
    Ok(made)
}

fn push_fitted(cells: &mut Vec<i64>, row: &[i64], width: u32) -> Result<(), NoMemory>
    ensures { OnOk result (cells.new.items ≡ cells.old.items ++ fit_row width row.now) }
{
    let width = width as usize;
    let end = cells.len() + width;
    let kept = row.len().min(width);
    cells.extend_from_slice(&row[..kept])?;
    cells.resize(end, 0)?;
    Ok(())
}
