ghost use Rattle.std.specs.Prelude.{◌<◌, slice_get, IsSomeAnd, IsTrue};

use crate::forms::{form, task_of};
use crate::scene::{Scene, home_in};
use nim_base::{Object, Short, Slot, Task, Worker};
use nim_command::{Command, Kind};
use nim_lines::{LineFault, halves, number, push_command, push_count};
use nim_place::{VersionMap, schedule_task};
use std::alloc::Global;

/// `map` (nothing is held), `created` (each object is created at its home): nothing; `task NUMBER POSITION FORM`: the
/// commands, each behind its worker; `versions`: of each object the latest version, who holds it, and what each worker
/// holds.
pub fn versions_line(
    alloc: Global,
    map: &mut VersionMap,
    scene: &Scene,
    word: &str,
    text: &str,
    out: &mut String,
) -> Result<(), LineFault> {
    match word {
        "map" => map_line(alloc, map, scene),
        "created" => created_line(alloc, map, scene),
        "task" => task_line(alloc, map, scene, text, out),
        _ => push_versions(alloc, map, out),
    }
}

fn map_line(alloc: Global, map: &mut VersionMap, scene: &Scene) -> Result<(), LineFault> {
    *map = VersionMap::new(alloc, scene.live.len() as u16, scene.objects)?;
    Ok(())
}

fn created_line(alloc: Global, map: &mut VersionMap, scene: &Scene) -> Result<(), LineFault> {
    for object in 0..scene.objects {
        let worker = home_in(scene, Object(object))?;
        map.apply_command(worker, &created(alloc, object));
    }
    Ok(())
}

fn created(alloc: Global, object: u16) -> Command {
    let kind = Kind::Create {
        slot: Slot(object),
        iota: false,
        number: 0,
    };
    let before = Short::new(alloc);
    Command {
        id: 0,
        kind,
        before,
    }
}

fn task_line(
    alloc: Global,
    map: &mut VersionMap,
    scene: &Scene,
    text: &str,
    out: &mut String,
) -> Result<(), LineFault> {
    let (place, told) = halves(text, " ")?;
    let (position, told) = halves(told, " ")?;
    let (place, position) = (number::<u16>(place)?, number::<u64>(position)?);
    let task = task_of(alloc, form(alloc, told)?)?;
    let commands = scheduled(alloc, map, scene, &task, place, position)?;
    push_commands(alloc, out, commands.as_slice())
}

fn scheduled(
    alloc: Global,
    map: &mut VersionMap,
    scene: &Scene,
    task: &Task,
    place: u16,
    position: u64,
) -> Result<Vec<(Worker, Command)>, LineFault> {
    if scene.live.len() != usize::from(map.workers()) || !writes_below(task, map.objects()) {
        return Err(LineFault::Form("the map has other workers or objects"));
    }
    let live = scene.live.as_slice();
    Ok(schedule_task(alloc, map, task, place, position, &scene.place, live)?)
}

/// Whether a task writes one of so many objects first.
fn writes_below(task: &Task, objects: u16) -> bool
    ensures { IsTrue result → IsSomeAnd (slice_get task.now.writes 0) (λ object. object.0 < objects) }
{
    match task.writes.as_slice().first() {
        Some(object) => object.0 < objects,
        None => false,
    }
}

/// Commands, a line each, behind their workers.
fn push_commands(
    alloc: Global,
    out: &mut String,
    commands: &[(Worker, Command)],
) -> Result<(), LineFault> {
    for (worker, command) in commands {
        push_count(alloc, out, "", u64::from(worker.0))?;
        out.push_str(": ")?;
        push_command(alloc, out, command)?;
    }
    Ok(())
}

fn push_versions(alloc: Global, map: &VersionMap, out: &mut String) -> Result<(), LineFault> {
    for object in 0..map.objects() {
        push_count(alloc, out, "", u64::from(object))?;
        push_count(alloc, out, ": latest ", map.latest(Object(object)))?;
        push_holder(alloc, out, map.holder(Object(object)))?;
        push_held(alloc, out, map, object)?;
    }
    Ok(())
}

fn push_holder(alloc: Global, out: &mut String, holder: Option<Worker>) -> Result<(), LineFault> {
    match holder {
        Some(worker) => push_count(alloc, out, " at ", u64::from(worker.0))?,
        None => out.push_str(" at none")?,
    }
    Ok(())
}

/// What each worker holds of an object, and the end of the line.
fn push_held(
    alloc: Global,
    out: &mut String,
    map: &VersionMap,
    object: u16,
) -> Result<(), LineFault> {
    out.push_str(", held")?;
    for worker in 0..map.workers() {
        match map.held(Worker(worker), Slot(object)) {
            Some(version) => push_count(alloc, out, " ", version)?,
            None => out.push_str(" -")?,
        }
    }
    out.push_str("\n")?;
    Ok(())
}
