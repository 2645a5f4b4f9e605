ghost use Rattle.std.specs.Prelude.{◌≡◌, ◌≤◌, length};
ghost use Rattle.nim_command.specs.Holds as spec;
ghost use Rattle.nim_plan.specs.Origins.{content_from};

use crate::slots::is_among;
use nim_base::{Object, Position, Slot, Version};
use nim_command::{Command, Kind, object_of};

/// Where the content of a slot comes from.
pub(crate) enum Origin {
    /// The command before put this version of the slot's object.
    Put(Version),
    /// What this slot had before the command.
    Before(Slot),
}

/// The object and version that a slot holds before the command at a place, when commands run in the order of their
/// list; nothing where the slot is empty. Past the end it is what all of them leave. Takes no memory. Its meaning is
/// `holds` of `specs/Holds.antt` of the crate `nim_command`.
pub fn holds(commands: &[Command], before: usize, slot: Slot) -> Option<(Object, Version)>
    ensures { result ≡ spec.holds commands.now before slot }
{
    held(commands, before.min(commands.len()), slot)
}

/// The same before a place of the list, or at its end.
fn held(commands: &[Command], before: usize, slot: Slot) -> Option<(Object, Version)>
    requires { before ≤ length commands.now }
    ensures { result ≡ spec.holds commands.now before slot }
{
    let mut at = before;
    let mut current = slot;
    while at > 0 {
        at -= 1;
        match look_back(&commands[at].kind, current) {
            Origin::Put(version) => return Some((object_of(current), version)),
            Origin::Before(earlier) => current = earlier,
        }
    }
    None
}

/// What a command of this kind leaves in a slot.
fn look_back(kind: &Kind, slot: Slot) -> Origin
    ensures { (before : Slot → spec.Content) → spec.left_by kind.now before slot ≡ content_from result before slot }
{
    match kind {
        Kind::Create { slot: written, .. } if slot.0 == written.0 => Origin::Put(0),
        Kind::Load {
            slot: written,
            version,
            ..
        }
        | Kind::Receive {
            slot: written,
            version,
        } if slot.0 == written.0 => Origin::Put(*version),
        Kind::Copy { from, to } if slot.0 == to.0 => Origin::Before(*from),
        Kind::Run {
            position,
            writes,
            ..
        } if is_among(writes.as_slice(), slot) => Origin::Put(version_after(*position)),
        _ => Origin::Before(slot),
    }
}

/// The version of what the task at a position writes: `version_after` of `specs/Holds.antt` of `nim_command`.
pub fn version_after(position: Position) -> Version
    ensures { result ≡ spec.version_after position }
{
    position.saturating_add(1)
}
