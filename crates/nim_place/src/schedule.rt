ghost use Rattle.std.specs.Prelude.{◌≡◌, ◌<◌, ◌≤◌, [], true, length, map, slice_get};
ghost use Rattle.std.specs.Prelude.{IfOk, OnOk, OnErr, IsSomeAnd};
ghost use Rattle.std.specs.List.{list_any};
ghost use Rattle.nim_command.specs.Numbers as numbers;
ghost use Rattle.nim_place.specs.declared.schedule.Moved.{Moved as moved_type};
ghost use Rattle.nim_place.specs.Finds.{FindsLatest};
ghost use Rattle.nim_place.specs.Extends.{is_live};
ghost use Rattle.nim_place.specs.Schedule as spec;
ghost use Rattle.nim_place.specs.Stands.{AreByRule, StandsOn};
ghost use Rattle.nim_place.specs.TaskOrders.{AsksForMore, ComesToNext, RunsAt, StaysCovered, StaysLegal, StaysPaired};
ghost use Rattle.nim_place.specs.Versions.{after_commands};

use crate::{Placement, VersionMap, home};
use nim_base::{NoMemory, Object, Position, Short, Slot, Task, Worker};
use nim_command::{Command, Kind, entry_number};
use std::alloc::Global;

/// An object that has to move before a task may run: the index of its first read, and who sends it.
#[derive(Clone, Copy, Debug)]
pub(crate) struct Moved {
    pub(crate) index: usize,
    pub(crate) object: Object,
    pub(crate) from: Worker,
}

/// The commands that the task at a position needs, each with its worker, in the order in which they are given: each
/// object that it reads, and whose latest version its owner lacks, is sent and received once, and then it runs. Their
/// numbers are those of task `number` of a block. The map takes them in. `live` has a flag for each worker. Its
/// meaning is `scheduled` of `specs/Schedule.antt`; where memory is refused, the map is as it was. What they keep true
/// of all orders so far, each worker being given its own in one Single, stands in `specs/TaskOrders.antt`.
pub fn schedule_task(
    alloc: Global,
    map: &mut VersionMap,
    task: &Task,
    number: u16,
    position: Position,
    place: &Placement,
    live: &[bool],
) -> Result<Vec<(Worker, Command)>, NoMemory>
    requires workers { length live.now ≡ map.old.workers }
    requires few { length live.now ≤ 16 }
    requires live { list_any (λ flag. flag) live.now ≡ true }
    requires writes { IsSomeAnd (slice_get task.now.writes 0) (λ object. object.0 < map.old.objects) }
    ensures commands { IfOk result (λ commands.
        commands.items ≡ spec.scheduled map.old task.now number position place.now live.now) }
    ensures ok { IfOk result (λ commands. map.new ≡ after_commands map.old commands.items) }
    ensures err { OnErr result (map.new ≡ map.old) }
    ensures stands { IfOk result (λ commands. StandsOn map.old map.new commands.items) }
    ensures finds { IfOk result (λ commands.
        FindsLatest map.old (spec.owner_of place.now task.now map.old.objects live.now) task.now number) }
    ensures by_rule { IfOk result (λ commands. AreByRule commands.items) }
    ensures asked { IfOk result (λ commands. AsksForMore map.old live.now commands.items) }
    ensures legal { IfOk result (λ commands. StaysLegal map.old live.now task.now position commands.items) }
    ensures versions { OnOk result (
        RunsAt map.old map.new (spec.owner_of place.now task.now map.old.objects live.now) task.now position) }
    ensures next { OnOk result (ComesToNext map.old map.new task.now position) }
    ensures covered { IfOk result (λ commands. StaysCovered commands.items) }
    ensures paired { IfOk result (λ commands. StaysPaired map.old live.now task.now number commands.items) }
{
    let owner = owner_of(place, task, map.objects(), live);
    let moved = moves(alloc, map, owner, task.reads.as_slice())?;
    let run = run_of(alloc, task, number, position, moved.as_slice())?;
    let mut commands = copies_of(alloc, map, number, owner, moved.as_slice())?;
    commands.push((owner, run))?;
    apply_all(map, commands.as_slice());
    Ok(commands)
}

/// The home of the first object that a task writes.
fn owner_of(place: &Placement, task: &Task, objects: u16, live: &[bool]) -> Worker
    requires few { length live.now ≤ 16 }
    requires live { list_any (λ flag. flag) live.now ≡ true }
    requires writes { IsSomeAnd (slice_get task.now.writes 0) (λ object. object.0 < objects) }
    ensures value { result ≡ spec.owner_of place.now task.now objects live.now }
    ensures within { result.0 < length live.now }
    ensures live { is_live live.now result ≡ true }
{
    let first = task.writes.as_slice()[0];
    home(place, first, objects, live)
}

/// What has to move to the owner, in the order of reads.
fn moves(
    alloc: Global,
    map: &VersionMap,
    owner: Worker,
    reads: &[Object],
) -> Result<Vec<Moved>, NoMemory>
    ensures { IfOk result (λ moved. moved.items ≡ spec.moves map.now owner [] reads.now) }
{
    let mut moved = Vec::new(alloc);
    for (index, object) in reads.iter().enumerate() {
        if let Some(from) = source_of(map, owner, &reads[..index], *object) {
            moved.push(Moved {
                index,
                object: *object,
                from,
            })?;
        }
    }
    Ok(moved)
}

/// Who sends an object that is read, behind other reads, if it has to move.
fn source_of(map: &VersionMap, owner: Worker, past: &[Object], object: Object) -> Option<Worker>
    ensures { result ≡ spec.source_of map.now owner past.now object }
{
    if is_one_of(past, object) || map.is_current(object, owner) {
        None
    } else {
        map.holder(object)
    }
}

/// Whether an object is one of these. It is `is_one_of` of `specs/Schedule.antt`.
pub fn is_one_of(objects: &[Object], object: Object) -> bool
    ensures { result ≡ spec.is_one_of objects.now object }
{
    objects.iter().any(|one| one.0 == object.0)
}

/// The Sends and the Receives.
fn copies_of(
    alloc: Global,
    map: &VersionMap,
    number: u16,
    owner: Worker,
    moved: &[Moved],
) -> Result<Vec<(Worker, Command)>, NoMemory>
    ensures { IfOk result (λ commands. commands.items ≡ spec.copies_of map.now number owner moved.now) }
{
    let mut commands = Vec::new(alloc);
    for one in moved {
        commands.push(send_of(alloc, number, owner, one))?;
        commands.push(receive_of(alloc, map, number, owner, one))?;
    }
    Ok(commands)
}

fn send_of(alloc: Global, number: u16, owner: Worker, moved: &Moved) -> (Worker, Command)
    ensures { result ≡ spec.send_of number owner moved.now }
{
    let kind = Kind::Send {
        slot: Slot(moved.object.0),
        peer: owner,
        entry: entry_number(number, 1, moved.index),
    };
    let id = entry_number(number, 0, moved.index);
    let before = Short::new(alloc);
    (moved.from, Command { id, kind, before })
}

fn receive_of(
    alloc: Global,
    map: &VersionMap,
    number: u16,
    owner: Worker,
    moved: &Moved,
) -> (Worker, Command)
    ensures { result ≡ spec.receive_of map.now number owner moved.now }
{
    let kind = Kind::Receive {
        slot: Slot(moved.object.0),
        version: map.latest(moved.object),
    };
    let id = entry_number(number, 1, moved.index);
    let before = Short::new(alloc);
    (owner, Command { id, kind, before })
}

/// The run over main slots, behind all that is received.
fn run_of(
    alloc: Global,
    task: &Task,
    number: u16,
    position: Position,
    moved: &[Moved],
) -> Result<Command, NoMemory>
    ensures { IfOk result (λ command. command ≡ spec.run_of task.now number position moved.now) }
{
    let kind = Kind::Run {
        position,
        func: task.func,
        params: Short::from_slice(alloc, task.params.as_slice())?,
        reads: main_slots(alloc, task.reads.as_slice())?,
        writes: main_slots(alloc, task.writes.as_slice())?,
    };
    Ok(Command {
        id: entry_number(number, 4, 0),
        kind,
        before: received(alloc, number, moved)?,
    })
}

fn main_slots<const N: usize>(alloc: Global, objects: &[Object]) -> Result<Short<Slot, N>, NoMemory>
    ensures { IfOk result (λ slots. slots ≡ map numbers.main_slot objects.now) }
{
    let mut slots = Short::new(alloc);
    for object in objects {
        slots.push(Slot(object.0))?;
    }
    Ok(slots)
}

/// The numbers of the Receives.
fn received(alloc: Global, number: u16, moved: &[Moved]) -> Result<Short<u32, 8>, NoMemory>
    ensures { IfOk result
        (λ before. before ≡ map (λ (m : moved_type). numbers.entry_number number 1 m.index) moved.now) }
{
    let mut before = Short::new(alloc);
    for one in moved {
        before.push(entry_number(number, 1, one.index))?;
    }
    Ok(before)
}

/// The map takes in commands, one after another.
fn apply_all(map: &mut VersionMap, commands: &[(Worker, Command)])
    ensures { map.new ≡ after_commands map.old commands.now }
{
    for command in commands {
        map.apply_command(command.0, &command.1);
    }
}
