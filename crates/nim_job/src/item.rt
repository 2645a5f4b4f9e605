use crate::Stmt;
use sqlite_items::Items;

/// What a driver has still to do: a statement, or further turns of a loop.
#[derive(Debug, Drop)]
pub enum Item {
    Run(Stmt),
    Again { turns: u64, body: Items<Stmt> },
}
