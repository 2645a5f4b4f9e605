ghost use Rattle.std.specs.Prelude.{◌≡◌, nat_eq};
ghost use Rattle.std.specs.HashMap.{get};
ghost use Rattle.std.specs.Option.{option_copied, option_map};
ghost use Rattle.nim_queue.specs.declared.waiting.Waiting.{Waiting as waiting_type};

use crate::waiting::Waiting;
use nim_command::Command;
use std::collections::HashMap;

/// The command of a ticket, where it waits.
pub(crate) fn command_at(waiting: &HashMap<u64, Waiting>, ticket: u64) -> Option<&Command>
    ensures { option_copied result ≡ option_map (λ (w : waiting_type). w.command) (get nat_eq waiting.now ticket) }
{
    match waiting.get(&ticket) {
        Some(w) => Some(&w.command),
        None => None,
    }
}

/// Which of the groups it is of.
pub(crate) fn group_at(waiting: &HashMap<u64, Waiting>, ticket: u64) -> Option<u64>
    ensures { result ≡ option_map (λ (w : waiting_type). w.group) (get nat_eq waiting.now ticket) }
{
    match waiting.get(&ticket) {
        Some(w) => Some(w.group),
        None => None,
    }
}
