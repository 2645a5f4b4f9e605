use crate::{Copied, NoMemory};

/// A worker, counted from 0.
#[derive(Clone, Copy, Debug, PartialEq, Eq, PartialOrd, Ord)]
pub struct Worker(pub u16);

/// One part of one variable. Objects count from 0 in order of declaration and then of part.
#[derive(Clone, Copy, Debug, PartialEq, Eq, PartialOrd, Ord)]
pub struct Object(pub u16);

/// A place for a value at a worker.
#[derive(Clone, Copy, Debug, Default, PartialEq, Eq, PartialOrd, Ord)]
pub struct Slot(pub u16);

/// Which content of an object: 0 the initial one, `k + 1` what the task at position `k` wrote.
pub type Version = u64;

/// The place of a task in program order, from 0.
pub type Position = u64;

/// How many rollbacks came before.
pub type Epoch = u32;

/// The place of a `do` among those of its epoch, from 0.
pub type Instance = u32;

/// The columns of a value, and the most rows that it may have.
#[derive(Clone, Copy, Debug, PartialEq, Eq)]
pub struct Shape {
    pub width: u32,
    pub rows: u32,
}

impl Copied for Object {
    fn copy(&self) -> Result<Object, NoMemory> {
        Ok(*self)
    }
}

impl Copied for Slot {
    fn copy(&self) -> Result<Slot, NoMemory> {
        Ok(*self)
    }
}

impl Copied for Shape {
    fn copy(&self) -> Result<Shape, NoMemory> {
        Ok(*self)
    }
}
