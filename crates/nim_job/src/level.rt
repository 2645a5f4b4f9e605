ghost use Rattle.std.specs.Prelude.{◌≡◌, IfOk};

use nim_base::{Copied, NoMemory};

/// Which kind of body a level is in.
#[derive(Clone, Copy, Debug, PartialEq, Eq)]
pub enum LevelKind {
    /// The driver's own body.
    Driver,
    Loop,
    While,
    /// The first branch of an `if`.
    First,
    /// The branch behind its `else`.
    Second,
}

/// How far a driver has come in one of the bodies that it is in.
#[derive(Clone, Copy, Debug, PartialEq, Eq)]
pub struct Level {
    /// Which statement of the body is next; the one before it holds the body of the level further in.
    pub next: u64,
    pub kind: LevelKind,
    /// How many further turns a loop has; 0 in another body.
    pub turns: u64,
}

impl Copied for Level {
    fn copy(&self) -> Result<Level, NoMemory> {
        Ok(*self)
    }
}
