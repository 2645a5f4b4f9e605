use crate::shapes::slots;
use crate::values::value;
use nim_base::{Copied, Position, Short, Slot, Worker};
use nim_command::{Command, Kind, object_of, reads, writes};
use nim_lines::{LineFault, func, halves, number, numbers, parts, push_number, push_slots, words};
use std::alloc::Global;

/// What a command does, as a transcript writes it: `create S fill N`, `create S iota N`, `load S version V of VALUE`,
/// `send S to P entry E`, `receive S version V`, `copy S to S`, `run POSITION FUNC PARAM .. of S .. -> S ..`,
/// `fetch S ticket T`.
pub fn kind(alloc: Global, text: &str) -> Result<Kind, LineFault> {
    let (head, tail) = parts(text, " of ");
    let head = words(alloc, head)?;
    kind_of(alloc, head.as_slice(), tail)
}

fn kind_of(alloc: Global, head: &[&str], tail: &str) -> Result<Kind, LineFault> {
    let [word, rest @ ..] = head else {
        return Err(LineFault::Form("no command is written so"));
    };
    match *word {
        "create" => created(rest),
        "load" => loaded(alloc, rest, tail),
        "send" => sent(rest),
        "receive" => received(rest),
        "copy" => copied(rest),
        "run" => run(alloc, rest, tail),
        "fetch" => fetched(rest),
        _ => Err(LineFault::Form("no command is written so")),
    }
}

/// The slot of a number.
pub fn slot(text: &str) -> Result<Slot, LineFault> {
    Ok(Slot(number::<u16>(text)?))
}

fn created(rest: &[&str]) -> Result<Kind, LineFault> {
    let [slot, how, first] = rest else {
        return Err(LineFault::Form("a create has a slot, a way and a number"));
    };
    Ok(Kind::Create {
        slot: self::slot(slot)?,
        iota: counts_up(how)?,
        number: number::<i64>(first)?,
    })
}

fn counts_up(how: &str) -> Result<bool, LineFault> {
    match how {
        "fill" => Ok(false),
        "iota" => Ok(true),
        _ => Err(LineFault::Form("a create fills or counts up")),
    }
}

fn loaded(alloc: Global, rest: &[&str], carried: &str) -> Result<Kind, LineFault> {
    let [slot, "version", version] = rest else {
        return Err(LineFault::Form("a load has a slot and a version"));
    };
    Ok(Kind::Load {
        slot: self::slot(slot)?,
        version: number::<u64>(version)?,
        value: value(alloc, carried)?,
    })
}

fn sent(rest: &[&str]) -> Result<Kind, LineFault> {
    let [slot, "to", peer, "entry", entry] = rest else {
        return Err(LineFault::Form("a send has a slot, a worker and an entry"));
    };
    Ok(Kind::Send {
        slot: self::slot(slot)?,
        peer: Worker(number::<u16>(peer)?),
        entry: number::<u32>(entry)?,
    })
}

fn received(rest: &[&str]) -> Result<Kind, LineFault> {
    let [slot, "version", version] = rest else {
        return Err(LineFault::Form("a receive has a slot and a version"));
    };
    Ok(Kind::Receive {
        slot: self::slot(slot)?,
        version: number::<u64>(version)?,
    })
}

fn copied(rest: &[&str]) -> Result<Kind, LineFault> {
    let [from, "to", to] = rest else {
        return Err(LineFault::Form("a copy has two slots"));
    };
    Ok(Kind::Copy {
        from: slot(from)?,
        to: slot(to)?,
    })
}

fn fetched(rest: &[&str]) -> Result<Kind, LineFault> {
    let [slot, "ticket", ticket] = rest else {
        return Err(LineFault::Form("a fetch has a slot and a ticket"));
    };
    Ok(Kind::Fetch {
        slot: self::slot(slot)?,
        ticket: number::<u32>(ticket)?,
    })
}

fn run(alloc: Global, rest: &[&str], sides: &str) -> Result<Kind, LineFault> {
    let [position, name, params @ ..] = rest else {
        return Err(LineFault::Form("a run has a position and a function"));
    };
    let params = constants(alloc, params)?;
    run_of(alloc, number::<u64>(position)?, name, params, sides)
}

fn run_of(
    alloc: Global,
    position: Position,
    name: &str,
    params: Short<i64, 3>,
    sides: &str,
) -> Result<Kind, LineFault> {
    let func = func(name)?;
    let (reads, writes) = both_sides(alloc, sides)?;
    Ok(Kind::Run {
        position,
        func,
        params,
        reads,
        writes,
    })
}

fn constants(alloc: Global, given: &[&str]) -> Result<Short<i64, 3>, LineFault> {
    let mut all = Short::new(alloc);
    for one in given {
        all.push(number::<i64>(one)?)?;
    }
    Ok(all)
}

/// The slots that are read and written, with `->` between them.
pub fn both_sides(
    alloc: Global,
    text: &str,
) -> Result<(Short<Slot, 8>, Short<Slot, 2>), LineFault> {
    let (from, to) = halves(text, "->")?;
    let from = slots(alloc, from)?;
    let reads = Short::from_slice(alloc, from.as_slice())?;
    Ok((reads, written(alloc, to)?))
}

fn written(alloc: Global, text: &str) -> Result<Short<Slot, 2>, LineFault> {
    let all = slots(alloc, text)?;
    Ok(Short::from_slice(alloc, all.as_slice())?)
}

/// The numbers that a command or an entry waits for.
pub fn waits(alloc: Global, text: &str) -> Result<Short<u32, 8>, LineFault> {
    let all = numbers::<u32>(alloc, text)?;
    Ok(Short::from_slice(alloc, all.as_slice())?)
}

/// A command: its number, what it does, and `after N ..` with the numbers that it waits for.
pub fn command(alloc: Global, text: &str) -> Result<Command, LineFault> {
    let (told, before) = parts(text.trim(), " after ");
    let (id, told) = halves(told, " ")?;
    let id = number::<u32>(id)?;
    let before = waits(alloc, before)?;
    Ok(Command {
        id,
        kind: kind(alloc, told)?,
        before,
    })
}

/// Commands with `;` between them.
pub fn commands(alloc: Global, text: &str) -> Result<Vec<Command>, LineFault> {
    let mut all = Vec::new(alloc);
    for one in text.split(';') {
        if !one.trim().is_empty() {
            all.push(command(alloc, one)?)?;
        }
    }
    Ok(all)
}

/// `slots COMMAND`: the slots that a command reads and writes, asked of a copy of it.
pub fn slots_line(alloc: Global, text: &str, out: &mut String) -> Result<(), LineFault> {
    let command = command_copied(alloc, text)?;
    push_touched(alloc, out, &command)
}

fn command_copied(alloc: Global, text: &str) -> Result<Command, LineFault> {
    let command = command(alloc, text)?;
    Ok(command.copy()?)
}

fn push_touched(alloc: Global, out: &mut String, command: &Command) -> Result<(), LineFault> {
    out.push_str("reads")?;
    push_slots(alloc, out, &reads(alloc, command)?)?;
    out.push_str(", writes")?;
    push_slots(alloc, out, &writes(alloc, command)?)?;
    out.push_str("\n")?;
    Ok(())
}

/// `object SLOT`: the object that a slot is of.
pub fn object_line(alloc: Global, text: &str, out: &mut String) -> Result<(), LineFault> {
    let object = object_of(slot(text)?);
    push_number(alloc, out, i64::from(object.0))
}
