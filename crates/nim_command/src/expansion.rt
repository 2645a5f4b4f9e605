ghost use Rattle.std.specs.Prelude.{◌≡◌, ◌≤◌, ◌<◌, ◌+◌, ◌^◌, map, length, slice_index_or, IfOk};
ghost use Rattle.nim_command.specs.Expansion as spec;

use crate::before::commands_by_rule;
use crate::numbers::{counted_from, main_slot, patch_number, task_of};
use crate::{Command, Entry, EntryKind, Kind, PatchPart};
use nim_base::{Copied, NoMemory, Param, Position, Short, Version};
use std::alloc::Global;

/// The commands of entries in an instance.
pub(crate) fn expanded(
    alloc: Global,
    entries: &[Entry],
    base: Position,
    args: &[i64],
    versions: &[Version],
) -> Result<Vec<Command>, NoMemory>
    ensures { IfOk result (λ commands. commands.items ≡ spec.expanded base args.now versions.now 0 entries.now) }
{
    let mut commands = Vec::new(alloc);
    let mut taken: usize = 0;
    for entry in entries {
        let named = version_of(versions, taken);
        commands.push(command_for(alloc, base, args, named, entry)?)?;
        if takes_version(&entry.kind) {
            taken += 1;
        }
    }
    Ok(commands)
}

fn command_for(
    alloc: Global,
    base: Position,
    args: &[i64],
    named: Version,
    entry: &Entry,
) -> Result<Command, NoMemory>
    ensures { IfOk result (λ command. command ≡ spec.command_for base args.now named entry.now) }
{
    Ok(Command {
        id: entry.id,
        kind: kind_for(alloc, base, args, named, entry.id, &entry.kind)?,
        before: entry.before.copy()?,
    })
}

/// What the copies of a patch stand for, with the versions of those that are received. Its meaning is
/// `patch_commands` of `specs/Expansion.antt`.
pub fn patch_commands(
    alloc: Global,
    versions: &[Version],
    parts: &[PatchPart],
) -> Result<Vec<Command>, NoMemory>
    ensures { IfOk result (λ commands. commands.items ≡ spec.patch_commands versions.now parts.now) }
{
    let commands = copied(alloc, versions, parts)?;
    commands_by_rule(alloc, commands)
}

fn copied(
    alloc: Global,
    versions: &[Version],
    parts: &[PatchPart],
) -> Result<Vec<Command>, NoMemory>
    ensures { IfOk result (λ commands. commands.items ≡ spec.copied versions.now 0 parts.now) }
{
    let mut commands = Vec::new(alloc);
    let mut taken: usize = 0;
    for part in parts {
        commands.push(command_of(alloc, version_of(versions, taken), part))?;
        if part.receives {
            taken += 1;
        }
    }
    Ok(commands)
}

/// One end of a copy as a command, its before set aside.
fn command_of(alloc: Global, named: Version, part: &PatchPart) -> Command
    ensures { result ≡ spec.command_of named part.now }
{
    Command {
        id: patch_number(part.number),
        kind: part_kind(named, part),
        before: Short::new(alloc),
    }
}

fn version_of(versions: &[Version], taken: usize) -> Version
    ensures { result ≡ slice_index_or versions.now taken 0 }
{
    match versions.get(taken) {
        Some(version) => *version,
        None => 0,
    }
}

fn takes_version(kind: &EntryKind) -> bool
    ensures { result ≡ spec.takes_version kind.now }
{
    match kind {
        EntryKind::Receive { offset, .. } => *offset == 0,
        _ => false,
    }
}

fn kind_for(
    alloc: Global,
    base: Position,
    args: &[i64],
    named: Version,
    number: u32,
    kind: &EntryKind,
) -> Result<Kind, NoMemory>
    ensures { IfOk result (λ made. made ≡ spec.kind_for base args.now named number kind.now) }
{
    Ok(match kind {
        EntryKind::Send { slot, peer, entry } => Kind::Send {
            slot: *slot,
            peer: *peer,
            entry: *entry,
        },
        EntryKind::Receive { slot, offset } => Kind::Receive {
            slot: *slot,
            version: version_at(base, named, *offset),
        },
        EntryKind::Copy { from, to } => Kind::Copy {
            from: *from,
            to: *to,
        },
        EntryKind::Run {
            func,
            params,
            reads,
            writes,
        } => Kind::Run {
            position: counted_from(base, u64::from(task_of(number))),
            func: *func,
            params: params_with(alloc, args, params.as_slice())?,
            reads: reads.copy()?,
            writes: writes.copy()?,
        },
    })
}

fn version_at(base: Position, named: Version, offset: u16) -> Version
    ensures { result ≡ spec.version_at base named offset }
{
    if offset == 0 {
        named
    } else {
        counted_from(base, u64::from(offset))
    }
}

fn params_with(alloc: Global, args: &[i64], params: &[Param]) -> Result<Short<i64, 3>, NoMemory>
    ensures { IfOk result (λ numbers. numbers ≡ map (spec.param_with args.now) params.now) }
{
    let mut numbers = Short::new(alloc);
    for param in params {
        numbers.push(param_with(args, *param))?;
    }
    Ok(numbers)
}

fn param_with(args: &[i64], param: Param) -> i64
    ensures { result ≡ spec.param_with args.now param }
{
    match param {
        Param::Const(number) => number,
        Param::Arg(place) => match args.get(usize::from(place)) {
            Some(number) => *number,
            None => 0,
        },
    }
}

fn part_kind(named: Version, part: &PatchPart) -> Kind
    ensures { result ≡ spec.part_kind named part.now }
{
    let slot = main_slot(part.object);
    if part.receives {
        Kind::Receive {
            slot,
            version: named,
        }
    } else {
        Kind::Send {
            slot,
            peer: part.peer,
            entry: patch_number(part.number),
        }
    }
}
