ghost use Rattle.std.specs.Prelude.{◌≡◌};
ghost use Rattle.nim_command.specs.Ranks.{ranks_compared};

use nim_base::Position;
use std::cmp::Ordering;

/// The order in which waits go: by the position, the stage, the command's number, and a Send before the rest. Its
/// meaning is `rank_of` of `specs/Ranks.antt`.
#[derive(Clone, Copy, Debug, PartialEq, Eq, PartialOrd, Ord)]
pub struct Rank {
    pub position: Position,
    /// 0 Create and Load, 1 Fetch, 2 a copy of a patch, 3 all else.
    pub stage: u8,
    pub number: u32,
    /// False for a Send alone.
    pub later: bool,
}

impl Rank {
    /// Which of two ranks comes first, or that they are equal.
    pub fn compare(&self, other: &Rank) -> Ordering
        ensures { result ≡ ranks_compared self.now other.now }
    {
        self.cmp(other)
    }
}
