use crate::{Block, Line, Stage, Steps, Var};

/// What a line of a driver is.
#[derive(Drop)]
pub enum Form {
    /// `nimbus 1`.
    Header,
    Steps(Steps),
    Var(Var),
    /// The head of a block, without stages.
    Block(Block),
    Stage(Stage),
    /// The `end` of a block.
    BlockEnd,
    Statement(Line),
}

/// The first word of a line, where a line of the grammar may begin with it.
#[derive(Clone, Copy)]
pub enum Head {
    Nimbus,
    Steps,
    Var,
    Block,
    Do,
    Let,
    Get,
    Loop,
    While,
    If,
    Else,
    End,
    Checkpoint,
    Output,
    Other,
}

/// What was read of a line.
#[derive(Drop)]
pub struct Found {
    pub head: Head,
    /// What the line is, if it has the form of one.
    pub form: Option<Form>,
    /// Each of its ints is in the range of an `i64`.
    pub fits: bool,
}
