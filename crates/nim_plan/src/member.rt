use nim_command::Command;
use std::marker::Model;

/// A command that a worker is asked for, and which of the orders of its epoch asks for it.
#[derive(Drop)]
pub(crate) struct Member {
    pub(crate) group: usize,
    pub(crate) command: Command,
}

impl Model for Member {
    ghost use Rattle.nim_command.specs.Waits as waits;

    ghost Value = { waits.Member };

    ghost view = { λ m. record { group = m.group; command = m.command } };
}
