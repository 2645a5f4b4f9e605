use nim_base::{Epoch, Instance, Position};

/// An instance of a block: its epoch and its number there, the block, and the position of the block's task 0.
#[derive(Clone, Copy, Debug, PartialEq, Eq)]
pub struct InstanceAt {
    pub epoch: Epoch,
    pub instance: Instance,
    pub block: u8,
    pub base: Position,
}
