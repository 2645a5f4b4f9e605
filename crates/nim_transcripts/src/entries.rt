use crate::commands::{both_sides, slot, waits};
use nim_base::{Object, Param, Seq, Short, Worker};
use nim_command::{Entry, EntryKind, PatchPart};
use nim_lines::{LineFault, func, halves, number, params, parts, words};
use std::alloc::Global;

/// An entry: its number, what it does and `after N ..` with the numbers that it waits for. It does `send S to P entry
/// E`, `receive S offset N`, `copy S to S` or `run FUNC PARAM .. of S .. -> S ..`.
pub fn entry(alloc: Global, text: &str) -> Result<Entry, LineFault> {
    let (told, before) = parts(text.trim(), " after ");
    let (id, told) = halves(told, " ")?;
    let id = number::<u32>(id)?;
    let before = waits(alloc, before)?;
    Ok(Entry {
        id,
        kind: entry_kind(alloc, told)?,
        before,
    })
}

/// Entries with `;` between them.
pub fn entries(alloc: Global, text: &str) -> Result<Vec<Entry>, LineFault> {
    let mut all = Vec::new(alloc);
    for one in text.split(';') {
        if !one.trim().is_empty() {
            all.push(entry(alloc, one)?)?;
        }
    }
    Ok(all)
}

fn entry_kind(alloc: Global, text: &str) -> Result<EntryKind, LineFault> {
    let (head, tail) = parts(text, " of ");
    let head = words(alloc, head)?;
    entry_kind_of(alloc, head.as_slice(), tail)
}

fn entry_kind_of(alloc: Global, head: &[&str], tail: &str) -> Result<EntryKind, LineFault> {
    let [word, rest @ ..] = head else {
        return Err(LineFault::Form("no entry is written so"));
    };
    match *word {
        "send" => entry_sent(rest),
        "receive" => entry_received(rest),
        "copy" => entry_copied(rest),
        "run" => entry_run(alloc, rest, tail),
        _ => Err(LineFault::Form("no entry is written so")),
    }
}

fn entry_sent(rest: &[&str]) -> Result<EntryKind, LineFault> {
    let [from, "to", peer, "entry", entry] = rest else {
        return Err(LineFault::Form("a send has a slot, a worker and an entry"));
    };
    Ok(EntryKind::Send {
        slot: slot(from)?,
        peer: Worker(number::<u16>(peer)?),
        entry: number::<u32>(entry)?,
    })
}

fn entry_received(rest: &[&str]) -> Result<EntryKind, LineFault> {
    let [to, "offset", offset] = rest else {
        return Err(LineFault::Form("a receive of a half has a slot and an offset"));
    };
    Ok(EntryKind::Receive {
        slot: slot(to)?,
        offset: number::<u16>(offset)?,
    })
}

fn entry_copied(rest: &[&str]) -> Result<EntryKind, LineFault> {
    let [from, "to", to] = rest else {
        return Err(LineFault::Form("a copy has two slots"));
    };
    Ok(EntryKind::Copy {
        from: slot(from)?,
        to: slot(to)?,
    })
}

fn entry_run(alloc: Global, rest: &[&str], sides: &str) -> Result<EntryKind, LineFault> {
    let [name, given @ ..] = rest else {
        return Err(LineFault::Form("a run has a function"));
    };
    entry_run_of(alloc, name, short_params(alloc, given)?, sides)
}

fn short_params(alloc: Global, given: &[&str]) -> Result<Short<Param, 3>, LineFault> {
    let all = params(alloc, given)?;
    Ok(Short::from_slice(alloc, all.as_slice())?)
}

fn entry_run_of(
    alloc: Global,
    name: &str,
    params: Short<Param, 3>,
    sides: &str,
) -> Result<EntryKind, LineFault> {
    let func = func(name)?;
    let (reads, writes) = both_sides(alloc, sides)?;
    Ok(EntryKind::Run {
        func,
        params,
        reads,
        writes,
    })
}

/// Ends of copies with `;` between them: `N send OBJECT to WORKER` or `N receive OBJECT from WORKER`.
pub fn copies(alloc: Global, text: &str) -> Result<Seq<PatchPart>, LineFault> {
    let mut all = Vec::new(alloc);
    for one in text.split(';') {
        if !one.trim().is_empty() {
            all.push(patch_part(alloc, one)?)?;
        }
    }
    Ok(Seq::from_vec(all))
}

fn patch_part(alloc: Global, text: &str) -> Result<PatchPart, LineFault> {
    let all = words(alloc, text)?;
    patch_part_of(all.as_slice())
}

fn patch_part_of(all: &[&str]) -> Result<PatchPart, LineFault> {
    let [id, way, object, between, peer] = all else {
        return Err(LineFault::Form("no copy is written so"));
    };
    Ok(PatchPart {
        number: number::<u16>(id)?,
        receives: comes_in(way, between)?,
        object: Object(number::<u16>(object)?),
        peer: Worker(number::<u16>(peer)?),
    })
}

fn comes_in(way: &str, between: &str) -> Result<bool, LineFault> {
    match (way, between) {
        ("send", "to") => Ok(false),
        ("receive", "from") => Ok(true),
        _ => Err(LineFault::Form("no copy is written so")),
    }
}
