ghost use Rattle.std.specs.Prelude.{◌≡◌, ◌<◌, [], ◌∷◌, ◌++◌, length, map, slice_index_or, slice_set, take, IfOk, OnOk};
ghost use Rattle.nim_command.specs.declared.entry.Entry.{Entry as entry_type};
ghost use Rattle.nim_command.specs.Before as spec;
ghost use Rattle.nim_command.specs.LastUses as uses_spec;
ghost use Rattle.nim_command.specs.LastUses.{IsPastOf};
ghost use Rattle.nim_command.specs.Ruled as ruled;

use crate::last_uses::LastUses;
use crate::{Command, Entry};
use nim_base::{NoMemory, Short, Slot};
use std::alloc::Global;

/// What a before set depends on: a number, and the slots that are read and written.
pub(crate) trait Waits {
    ghost use Rattle.nim_command.specs.Before.{Footprint};

    ghost footprint: { Self → Footprint };

    fn number(&self) -> u32
        ensures { result ≡ (footprint self.now).number };

    fn reads(&self) -> &[Slot]
        ensures { result.now ≡ (footprint self.now).reads };

    fn writes(&self) -> &[Slot]
        ensures { result.now ≡ (footprint self.now).writes };
}

impl Waits for Command {
    ghost footprint = { spec.footprint_of };

    fn number(&self) -> u32 {
        self.id
    }

    fn reads(&self) -> &[Slot] {
        self.kind.reads()
    }

    fn writes(&self) -> &[Slot] {
        self.kind.writes()
    }
}

impl Waits for Entry {
    ghost footprint = { ruled.entry_footprint };

    fn number(&self) -> u32 {
        self.id
    }

    fn reads(&self) -> &[Slot] {
        self.kind.reads()
    }

    fn writes(&self) -> &[Slot] {
        self.kind.writes()
    }
}

/// Entries, each with the before set of the rule in place of its own. Their meaning is `entries_by_rule` of
/// `specs/Ruled.antt`.
pub fn entries_by_rule(alloc: Global, mut entries: Vec<Entry>) -> Result<Vec<Entry>, NoMemory>
    ensures { IfOk result (λ all. all.items ≡ ruled.entries_by_rule [] entries.items) }
{
    let mut uses = LastUses::new(alloc);
    let mut places = Vec::new(alloc);
    for index in 0..entries.len() {
        put_before(alloc, &mut uses, &mut places, entries.as_mut_slice(), index)?;
    }
    Ok(entries)
}

/// The entry behind those whose last uses these are gets the before set of the rule, and is noted.
fn put_before(
    alloc: Global,
    uses: &mut LastUses,
    places: &mut Vec<usize>,
    entries: &mut [Entry],
    index: usize,
) -> Result<(), NoMemory>
    requires inside { index < length entries.old }
    requires past { IsPastOf uses.old (map ruled.entry_footprint (take index entries.old)) }
    ensures ruled { OnOk result ((e : entry_type) → e ≡ slice_index_or entries.old index e
        → entries.new ≡ slice_set entries.old index (record e {
          before = spec.before_of (map ruled.entry_footprint (take index entries.old)) (ruled.entry_footprint e);
        })) }
    ensures noted { OnOk result ((e : entry_type) → e ≡ slice_index_or entries.old index e
        → IsPastOf uses.new (map ruled.entry_footprint (take index entries.old) ++ ruled.entry_footprint e ∷ [])) }
{
    let all = &entries[..];
    let before = before_set(alloc, uses, places, &all[..index], &all[index])?;
    uses.note(index, &all[index])?;
    entries[index].before = before;
    Ok(())
}

/// Commands, each with the before set of the rule in place of its own.
pub(crate) fn commands_by_rule(
    alloc: Global,
    commands: Vec<Command>,
) -> Result<Vec<Command>, NoMemory>
    ensures { IfOk result (λ all. all.items ≡ ruled.commands_by_rule [] commands.items) }
{
    let mut done = Vec::with_capacity(alloc, commands.len())?;
    let mut uses = LastUses::new(alloc);
    let mut places = Vec::new(alloc);
    for command in commands {
        let before = before_set(alloc, &uses, &mut places, done.as_slice(), &command)?;
        uses.note(done.len(), &command)?;
        done.push(command_with(command, before))?;
    }
    Ok(done)
}

/// The command with this before set in place of its own.
fn command_with(command: Command, before: Short<u32, 8>) -> Command
    ensures { result ≡ record command { before = before } }
{
    let Command { id, kind, .. } = command;
    Command { id, kind, before }
}

/// The before set of one that comes behind these, whose last uses these are: the numbers of those that it has to wait
/// for, in order. Their places are put into a list.
fn before_set<T: Waits>(
    alloc: Global,
    uses: &LastUses,
    places: &mut Vec<usize>,
    past: &[T],
    later: &T,
) -> Result<Short<u32, 8>, NoMemory>
    requires { IsPastOf uses.now (map T.footprint past.now) }
    ensures { IfOk result (λ before. before ≡ spec.before_of (map T.footprint past.now) (T.footprint later.now)) }
{
    uses.places(places, later)?;
    numbers_at(alloc, past, places.as_slice())
}

/// The numbers of those at these places.
fn numbers_at<T: Waits>(
    alloc: Global,
    all: &[T],
    places: &[usize],
) -> Result<Short<u32, 8>, NoMemory>
    ensures { IfOk result (λ numbers. numbers ≡ uses_spec.numbers_at (map T.footprint all.now) places.now) }
{
    let mut numbers = Short::new(alloc);
    for place in places {
        push_number(&mut numbers, all, *place)?;
    }
    Ok(numbers)
}

/// The number of the one at this place, where there is one.
fn push_number<T: Waits>(
    numbers: &mut Short<u32, 8>,
    all: &[T],
    place: usize,
) -> Result<(), NoMemory>
    ensures { OnOk result (numbers.new ≡ numbers.old ++ uses_spec.number_at (map T.footprint all.now) place) }
{
    if let Some(one) = all.get(place) {
        numbers.push(one.number())?;
    }
    Ok(())
}
