ghost use Rattle.std.specs.Prelude.{◌≡◌};
ghost use Rattle.nim_command.specs.Slots as spec;

use nim_base::Slot;
use nim_command::Kind;

/// Whether a slot is one of these: `is_among` of `specs/Slots.antt` of `nim_command`.
pub fn is_among(slots: &[Slot], slot: Slot) -> bool
    ensures { result ≡ spec.is_among slots.now slot }
{
    slots.iter().any(|one| one.0 == slot.0)
}

pub(crate) fn does_write(kind: &Kind, slot: Slot) -> bool
    ensures { result ≡ spec.does_write kind.now slot }
{
    is_among(kind.writes(), slot)
}

pub(crate) fn does_touch(kind: &Kind, slot: Slot) -> bool
    ensures { result ≡ spec.does_touch kind.now slot }
{
    is_among(kind.reads(), slot) || does_write(kind, slot)
}
