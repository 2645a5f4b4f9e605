use nim_base::{Object, Seq};

/// What a driver asks for next.
#[derive(Debug, Drop)]
pub enum Ask {
    /// The tasks of a block, in order.
    Run { block: u8, args: Seq<i64> },
    /// A cell of an object.
    Get { object: Object, row: u64, cell: u64 },
    Checkpoint,
    /// The texts of a variable's parts, in order.
    Output { var: u8 },
    /// Nothing: the driver is at its end.
    Finished,
    /// Nothing: one more statement would pass the most that are counted, or too much was printed.
    Limit,
}

/// Which kind of ask isn't answered yet.
#[derive(Clone, Copy, Debug, PartialEq, Eq)]
pub enum Asked {
    Run,
    /// A cell, for this scalar.
    Get { scalar: u8 },
    Checkpoint,
    Output,
}
