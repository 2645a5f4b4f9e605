use nim_base::{Epoch, Object, Position, Seq, Version, Worker};

/// A Run that a worker performed: the task's position, and what it read, an object and its version for each read.
#[derive(Debug, Drop)]
pub struct Ran {
    pub worker: Worker,
    pub epoch: Epoch,
    pub position: Position,
    pub reads: Seq<(Object, Version)>,
}
