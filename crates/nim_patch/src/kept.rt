use crate::Patch;

/// What a kept patch is found by: the blocks of an instance and of the one before it.
#[derive(Clone, Copy, Debug, PartialEq, Eq, Hash)]
pub struct Key {
    pub previous: u8,
    pub next: u8,
}

/// A patch with the number under which workers have it.
#[derive(Debug, Drop)]
pub struct Kept {
    pub number: u8,
    pub patch: Patch,
}
