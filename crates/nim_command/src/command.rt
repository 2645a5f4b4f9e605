use nim_base::{Func, Position, Short, Slot, Value, Version, Worker};

/// What a command does with the slots of its worker. What each kind leaves in them is `left_by` of
/// `specs/Holds.antt`.
#[derive(Debug, Drop)]
pub enum Kind {
    /// Makes the initial value of the slot's object: in each cell the number, or with `iota` numbers that count up
    /// from it, row by row.
    Create {
        slot: Slot,
        iota: bool,
        number: i64,
    },
    /// Puts a value into a slot.
    Load {
        slot: Slot,
        version: Version,
        value: Value,
    },
    /// Sends what a slot has to the entry of another worker.
    Send {
        slot: Slot,
        peer: Worker,
        entry: u32,
    },
    /// Takes what another worker sends.
    Receive {
        slot: Slot,
        version: Version,
    },
    /// Puts what a slot has into another one.
    Copy {
        from: Slot,
        to: Slot,
    },
    /// Runs the task at a position.
    Run {
        position: Position,
        func: Func,
        params: Short<i64, 3>,
        reads: Short<Slot, 8>,
        writes: Short<Slot, 2>,
    },
    /// Reports what a slot has.
    Fetch {
        slot: Slot,
        ticket: u32,
    },
}

/// A command, by its number, and the numbers of the earlier commands that it waits for. Its lists lie in it: where
/// they are no longer than those of a function's task, it takes no memory.
#[derive(Debug, Drop)]
pub struct Command {
    pub id: u32,
    pub kind: Kind,
    pub before: Short<u32, 8>,
}
