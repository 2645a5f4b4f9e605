use crate::{Block, Stmt};
use nim_base::{Name, Seq, Shape, Value};
use sqlite_items::Items;

/// What a variable holds at first.
#[derive(Debug, Drop)]
pub enum Init {
    /// In each cell the same number.
    Fill(i64),
    /// In each cell its place, counted over all parts, rows and columns.
    Iota,
    /// What a data file gave: a value per part, in order.
    Loaded(Seq<Value>),
}

/// A variable: `parts` objects of one shape.
#[derive(Debug, Drop)]
pub struct Var {
    pub name: Name,
    pub parts: u32,
    pub shape: Shape,
    pub init: Init,
}

/// What a driver stands for. Its meaning is `serial_of` of `specs/Serial.antt`.
#[derive(Debug, Drop)]
pub struct Job {
    /// The most statements that a run counts.
    pub steps: u32,
    pub vars: Seq<Var>,
    pub blocks: Seq<Block>,
    pub body: Items<Stmt>,
}
