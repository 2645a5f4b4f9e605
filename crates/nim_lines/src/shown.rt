use crate::LineFault;
use crate::funcs::func_name;
use nim_base::{Param, Slot, Worker};
use nim_command::{Command, Entry, EntryKind, Kind};
use std::alloc::Global;

/// Adds a line with a number.
pub fn push_number(alloc: Global, out: &mut String, number: i64) -> Result<(), LineFault> {
    out.push_str(format!(in alloc; "{number}\n")?.as_str())?;
    Ok(())
}

/// Adds a line that says yes or no.
pub fn push_answer(out: &mut String, holds: bool) -> Result<(), LineFault> {
    out.push_str(if holds { "yes\n" } else { "no\n" })?;
    Ok(())
}

/// Adds a text and a number behind it.
pub fn push_count(
    alloc: Global,
    out: &mut String,
    text: &str,
    number: u64,
) -> Result<(), LineFault> {
    out.push_str(text)?;
    out.push_str(format!(in alloc; "{number}")?.as_str())?;
    Ok(())
}

/// Adds slots, each behind a blank.
pub fn push_slots(alloc: Global, out: &mut String, slots: &[Slot]) -> Result<(), LineFault> {
    for slot in slots {
        push_count(alloc, out, " ", u64::from(slot.0))?;
    }
    Ok(())
}

/// Adds parameters, each behind a blank.
pub fn push_params(alloc: Global, out: &mut String, params: &[Param]) -> Result<(), LineFault> {
    for param in params {
        match param {
            Param::Const(number) => push_param(alloc, out, *number)?,
            Param::Arg(place) => push_count(alloc, out, " #", u64::from(*place))?,
        }
    }
    Ok(())
}

fn push_param(alloc: Global, out: &mut String, number: i64) -> Result<(), LineFault> {
    out.push_str(format!(in alloc; " {number}")?.as_str())?;
    Ok(())
}

/// Adds a line with a command, as transcripts write it; a Load without its value.
pub fn push_command(alloc: Global, out: &mut String, command: &Command) -> Result<(), LineFault> {
    push_count(alloc, out, "", u64::from(command.id))?;
    push_kind(alloc, out, &command.kind)?;
    push_after(alloc, out, command.before.as_slice())
}

fn push_kind(alloc: Global, out: &mut String, kind: &Kind) -> Result<(), LineFault> {
    match kind {
        Kind::Create { slot, iota, number } => push_created(alloc, out, *slot, *iota, *number),
        Kind::Load { slot, version, .. } => {
            push_with(alloc, out, " load ", *slot, " version ", *version)
        }
        Kind::Send { slot, peer, entry } => push_send(alloc, out, *slot, *peer, *entry),
        Kind::Receive { slot, version } => {
            push_with(alloc, out, " receive ", *slot, " version ", *version)
        }
        Kind::Copy { from, to } => push_with(alloc, out, " copy ", *from, " to ", u64::from(to.0)),
        Kind::Fetch { slot, ticket } => {
            push_with(alloc, out, " fetch ", *slot, " ticket ", u64::from(*ticket))
        }
        Kind::Run {
            position,
            func,
            params,
            reads,
            writes,
        } => {
            push_count(alloc, out, " run ", *position)?;
            push_named(out, func_name(*func))?;
            for param in params.as_slice() {
                push_param(alloc, out, *param)?;
            }
            push_sides(alloc, out, reads.as_slice(), writes.as_slice())
        }
    }
}

/// Adds a line with an entry, as transcripts write it.
pub fn push_entry(alloc: Global, out: &mut String, entry: &Entry) -> Result<(), LineFault> {
    push_count(alloc, out, "", u64::from(entry.id))?;
    push_entry_kind(alloc, out, &entry.kind)?;
    push_after(alloc, out, entry.before.as_slice())
}

fn push_entry_kind(alloc: Global, out: &mut String, kind: &EntryKind) -> Result<(), LineFault> {
    match kind {
        EntryKind::Send { slot, peer, entry } => push_send(alloc, out, *slot, *peer, *entry),
        EntryKind::Receive { slot, offset } => {
            push_with(
                alloc,
                out,
                " receive ",
                *slot,
                " offset ",
                u64::from(*offset),
            )
        }
        EntryKind::Copy { from, to } => {
            push_with(alloc, out, " copy ", *from, " to ", u64::from(to.0))
        }
        EntryKind::Run {
            func,
            params,
            reads,
            writes,
        } => {
            out.push_str(" run")?;
            push_named(out, func_name(*func))?;
            push_params(alloc, out, params.as_slice())?;
            push_sides(alloc, out, reads.as_slice(), writes.as_slice())
        }
    }
}

/// The name of a function, behind a blank.
fn push_named(out: &mut String, name: &str) -> Result<(), LineFault> {
    out.push_str(" ")?;
    out.push_str(name)?;
    Ok(())
}

fn push_created(
    alloc: Global,
    out: &mut String,
    slot: Slot,
    iota: bool,
    number: i64,
) -> Result<(), LineFault> {
    push_count(alloc, out, " create ", u64::from(slot.0))?;
    out.push_str(if iota { " iota" } else { " fill" })?;
    push_param(alloc, out, number)
}

fn push_send(
    alloc: Global,
    out: &mut String,
    slot: Slot,
    peer: Worker,
    entry: u32,
) -> Result<(), LineFault> {
    push_with(alloc, out, " send ", slot, " to ", u64::from(peer.0))?;
    push_count(alloc, out, " entry ", u64::from(entry))
}

/// A text and a slot, and another text and a number.
fn push_with(
    alloc: Global,
    out: &mut String,
    text: &str,
    slot: Slot,
    between: &str,
    number: u64,
) -> Result<(), LineFault> {
    push_count(alloc, out, text, u64::from(slot.0))?;
    push_count(alloc, out, between, number)
}

/// What is read and what is written.
fn push_sides(
    alloc: Global,
    out: &mut String,
    reads: &[Slot],
    writes: &[Slot],
) -> Result<(), LineFault> {
    out.push_str(" of")?;
    push_slots(alloc, out, reads)?;
    out.push_str(" ->")?;
    push_slots(alloc, out, writes)
}

/// What is waited for, and the end of the line.
fn push_after(alloc: Global, out: &mut String, before: &[u32]) -> Result<(), LineFault> {
    if !before.is_empty() {
        out.push_str(" after")?;
    }
    for number in before {
        push_count(alloc, out, " ", u64::from(*number))?;
    }
    out.push_str("\n")?;
    Ok(())
}
