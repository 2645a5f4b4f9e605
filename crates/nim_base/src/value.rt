ghost use Rattle.std.specs.Prelude.{◌≡◌, [], ◌∷◌, ◌++◌, ◌-◌, ◌*◌, ◌^◌, ◌<◌, ◌≤◌, length, IfOk, OnOk, OnErr};
ghost use Rattle.std.specs.Vec.{vec_len};
ghost use Rattle.nim_base.specs.Value.{IsGrid, cell_of, cells_of, filled, rows_of};

use crate::{Copied, NoMemory, Shape};
use std::alloc::Global;
use std::marker::Model;

/// What an object holds: rows of cells, each row as wide as the value. Contracts see its width,
/// at least 1, and its list of rows (`specs/Value.antt`); the cells lie in one buffer, row by row.
#[derive(Debug, Drop)]
pub struct Value {
    width: u32,
    rows: u32,
    cells: Vec<i64>,
}

impl Model for Value {
    ghost use Rattle.std.specs.Prelude.{◌≡◌, ◌*◌, ◌≤◌, length};
    ghost use Rattle.nim_base.specs.Value.{Grid, rows_of};

    ghost Value = { Grid };

    ghost view = { λ v. record { width = v.width; rows = rows_of v.rows v.width v.cells.items } };

    ghost invariant = { λ v. (1 ≤ v.width) × (length v.cells.items ≡ v.rows * v.width) };
}

impl Value {
    /// No rows; takes no memory.
    pub fn new(alloc: Global, width: u32) -> Value
        requires { 1 ≤ width }
        ensures { result ≡ record { width = width; rows = [] } }
    {
        Value {
            width,
            rows: 0,
            cells: Vec::new(alloc),
        }
    }

    /// The value of cells that lie row by row.
    pub fn from_cells(width: u32, rows: u32, cells: Vec<i64>) -> Value
        requires wide { 1 ≤ width }
        requires whole { length cells.items ≡ rows * width }
        ensures { result ≡ record { width = width; rows = rows_of rows width cells.items } }
    {
        Value { width, rows, cells }
    }

    /// How many cells each row has, at least 1.
    pub fn width(&self) -> u32
        ensures { result ≡ self.now.width }
    {
        self.width
    }

    /// How many rows there are; there may be none.
    pub fn rows(&self) -> u32
        ensures { result ≡ length self.now.rows }
    {
        self.rows
    }

    /// All cells, row by row.
    pub fn cells(&self) -> &[i64]
        ensures cells { result.now ≡ cells_of self.now.rows }
        ensures rows { self.now.rows ≡ rows_of (length self.now.rows) self.now.width result.now }
        ensures length { length result.now ≡ length self.now.rows * self.now.width }
        ensures shaped { IsGrid self.now }
    {
        let _rows = self.rows;
        self.cells.as_slice()
    }

    /// Gives its cells away, row by row.
    pub fn into_cells(self) -> Vec<i64>
        ensures cells { result.items ≡ cells_of self.rows }
        ensures rows { self.rows ≡ rows_of (length self.rows) self.width result.items }
        ensures length { length result.items ≡ length self.rows * self.width }
    {
        let Value { cells, .. } = self;
        cells
    }

    /// As many rows as the shape has, each cell the same number.
    pub fn filled(alloc: Global, shape: Shape, number: i64) -> Result<Value, NoMemory>
        requires { 1 ≤ shape.width }
        ensures { IfOk result (λ value. value ≡ filled shape number) }
    {
        let cells = vec![in alloc; number; shape.rows as usize * shape.width as usize]?;
        Ok(Value {
            width: shape.width,
            rows: shape.rows,
            cells,
        })
    }

    /// The cell of a row and a column, 0 where there is none.
    pub fn cell(&self, row: u32, column: u32) -> i64
        ensures { result ≡ cell_of self.now row column }
    {
        if row < self.rows && column < self.width {
            self.cells[row as usize * self.width as usize + column as usize]
        } else {
            0
        }
    }

    /// One more row at the end.
    pub fn push_row(&mut self, row: &[i64]) -> Result<(), NoMemory>
        requires width { length row.now ≡ self.old.width }
        requires room { length self.old.rows < 2 ^ 32 - 1 }
        ensures ok { OnOk result (self.new ≡ record self.old { rows = self.old.rows ++ row.now ∷ [] }) }
        ensures err { OnErr result (self.new ≡ self.old) }
    {
        self.cells.extend_from_slice(row)?;
        self.rows += 1;
        Ok(())
    }
}

impl Copied for Value {
    fn copy(&self) -> Result<Value, NoMemory> {
        let cells = Vec::from_slice(*self.cells.allocator(), self.cells.as_slice())?;
        Ok(Value {
            width: self.width,
            rows: self.rows,
            cells,
        })
    }
}
