ghost use Rattle.std.specs.Prelude.{◌≡◌, ◌==◌};
ghost use Rattle.nim_queue.specs.Counts.{fewer};

use nim_command::Command;
use std::collections::LinkedList;

/// A command that isn't complete.
#[derive(Drop)]
pub(crate) struct Waiting {
    /// Which of the groups it is of.
    pub(crate) group: u64,
    pub(crate) command: Command,
    /// How often it waits for a command that isn't complete.
    pub(crate) pending: u64,
    /// The tickets of those that wait for it, as often as they do.
    pub(crate) followers: LinkedList<u64>,
}

impl Waiting {
    /// One of its waits is complete; whether it was the last.
    pub(crate) fn count_down(&mut self) -> bool
        ensures waits { self.new ≡ fewer 1 self.old }
        ensures last { result ≡ (self.old.pending == 1) }
    {
        let last = self.pending == 1;
        self.pending = self.pending.saturating_sub(1);
        last
    }
}
