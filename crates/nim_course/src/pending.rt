use nim_base::Seq;

/// What a controller has to do before its driver goes on.
#[derive(Debug, Drop)]
pub enum Pending {
    /// The epoch is to be begun: no order of it was given.
    Begin,
    /// Nothing: the driver may be asked.
    Idle,
    /// An instance of a block, with these arguments, waits for room.
    Block { block: u8, args: Seq<i64> },
    /// A cell of the object that was fetched is awaited.
    Cell { row: u64, cell: u64 },
    /// The parts of a variable that is printed are awaited.
    Parts { var: u8 },
    /// The driver is at its end.
    Ended,
}
