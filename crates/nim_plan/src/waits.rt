ghost use Rattle.std.specs.Prelude.{◌≡◌, ◌<◌, ◌^◌, ◌++◌, ◌∷◌, [], ◌||◌, length, if◌then◌else◌, IfOk, OnOk};
ghost use Rattle.nim_command.specs.Slots.{reads_of, writes_of};
ghost use Rattle.nim_command.specs.Waits.{waits_of};
ghost use Rattle.nim_plan.specs.Free as spec;

use crate::member::Member;
use crate::slots::{does_write, is_among};
use nim_base::{NoMemory, Short, Slot};
use nim_command::{Command, Kind};
use std::alloc::Global;

/// The places of the earlier commands that the one at a place waits for, in order. Walks down from the place with the
/// slots that the command touches and no command passed so far writes.
pub(crate) fn waits(
    alloc: Global,
    members: &[Member],
    place: usize,
) -> Result<Short<u32, 8>, NoMemory>
    requires place { place < length members.now }
    requires few { length members.now < 2 ^ 32 }
    ensures { IfOk result (λ waits. waits ≡ waits_of members.now place) }
{
    let later = &members[place];
    let mut free = touched(alloc, &later.command.kind)?;
    let mut waits = Vec::new(alloc);
    let mut at = place;
    while at > 0 {
        at -= 1;
        let earlier = &members[at];
        let waited = is_waited(earlier, free.as_slice(), later);
        keep_free(&mut free, &earlier.command.kind);
        push_if(&mut waits, waited, at)?;
    }
    waits.reverse();
    Short::from_slice(alloc, waits.as_slice())
}

fn touched(alloc: Global, kind: &Kind) -> Result<Vec<Slot>, NoMemory>
    ensures { IfOk result (λ slots. slots.items ≡ spec.touched_by kind.now) }
{
    let mut slots = Vec::from_slice(alloc, kind.reads())?;
    slots.extend_from_slice(kind.writes())?;
    Ok(slots)
}

/// Drops the slots that a command writes.
fn keep_free(slots: &mut Vec<Slot>, kind: &Kind)
    ensures { slots.new.items ≡ spec.kept_free kind.now slots.old.items }
{
    slots.retain(|slot| !does_write(kind, *slot));
}

/// Appends a place where it is waited for.
fn push_if(waits: &mut Vec<u32>, waited: bool, place: usize) -> Result<(), NoMemory>
    requires { place < 2 ^ 32 }
    ensures { OnOk result (waits.new.items ≡ waits.old.items ++ (if waited then place ∷ [] else [])) }
{
    if waited {
        waits.push(number(place))?;
    }
    Ok(())
}

/// A place as a command's number.
pub(crate) fn number(place: usize) -> u32
    requires { place < 2 ^ 32 }
    ensures { result ≡ place }
{
    place as u32
}

/// Whether a command waits for an earlier one: in its own group where it names its number, else where they border.
fn is_waited(earlier: &Member, free: &[Slot], later: &Member) -> bool
    ensures { result ≡ spec.is_waited_free earlier.now free.now later.now }
{
    if earlier.group == later.group {
        does_name(&later.command, earlier.command.id)
    } else {
        is_border(&earlier.command.kind, free, &later.command.kind)
    }
}

fn does_name(command: &Command, id: u32) -> bool
    ensures { result ≡ spec.does_name command.now id }
{
    command.before.as_slice().iter().any(|number| *number == id)
}

/// Whether the earlier command writes a free slot, or reads one that the later one writes.
fn is_border(earlier: &Kind, free: &[Slot], later: &Kind) -> bool
    ensures { result ≡ (spec.has_free free.now (writes_of earlier.now)
        || spec.has_rewritten free.now later.now (reads_of earlier.now)) }
{
    has_free(free, earlier.writes()) || has_rewritten(free, later, earlier.reads())
}

fn has_free(free: &[Slot], slots: &[Slot]) -> bool
    ensures { result ≡ spec.has_free free.now slots.now }
{
    slots.iter().any(|slot| is_among(free, *slot))
}

fn has_rewritten(free: &[Slot], later: &Kind, slots: &[Slot]) -> bool
    ensures { result ≡ spec.has_rewritten free.now later.now slots.now }
{
    slots
        .iter()
        .any(|slot| is_among(free, *slot) && does_write(later, *slot))
}
