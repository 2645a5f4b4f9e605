ghost use Rattle.std.specs.Prelude.{◌≡◌, IfOk};

use std::alloc::{AllocError, AllocFailed};

/// The answer where memory was refused. It may come in place of any other answer of a call that
/// takes memory.
#[derive(Clone, Copy, Debug, PartialEq, Eq)]
pub struct NoMemory;

impl From<AllocError> for NoMemory {
    fn from(_refused: AllocError) -> NoMemory {
        NoMemory
    }
}

impl<T: Drop> From<AllocFailed<T>> for NoMemory {
    fn from(_refused: AllocFailed<T>) -> NoMemory {
        NoMemory
    }
}

/// A value that may be copied where there is memory for it.
pub trait Copied: Drop {
    /// An equal value.
    fn copy(&self) -> Result<Self, NoMemory>
        ensures { IfOk result (λ other. other ≡ self.now) };
}

impl Copied for u8 {
    fn copy(&self) -> Result<u8, NoMemory> {
        Ok(*self)
    }
}

impl Copied for u16 {
    fn copy(&self) -> Result<u16, NoMemory> {
        Ok(*self)
    }
}

impl Copied for u32 {
    fn copy(&self) -> Result<u32, NoMemory> {
        Ok(*self)
    }
}

impl Copied for u64 {
    fn copy(&self) -> Result<u64, NoMemory> {
        Ok(*self)
    }
}

impl Copied for i64 {
    fn copy(&self) -> Result<i64, NoMemory> {
        Ok(*self)
    }
}

impl<A: Copied, B: Copied> Copied for (A, B) {
    fn copy(&self) -> Result<(A, B), NoMemory> {
        Ok((self.0.copy()?, self.1.copy()?))
    }
}
