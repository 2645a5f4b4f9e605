use crate::commands::command;
use crate::shapes::push_contents;
use nim_base::{Position, Slot};
use nim_command::{Command, Rank};
use nim_lines::{LineFault, halves, number};
use nim_plan::{holds, rank};
use std::alloc::Global;

/// `holds SLOT before PLACE`: the object and the version that a slot holds before a place of a list of commands.
pub fn holds_line(
    alloc: Global,
    list: &[Command],
    text: &str,
    out: &mut String,
) -> Result<(), LineFault> {
    let (slot, place) = halves(text, " before ")?;
    let (slot, place) = (Slot(number::<u16>(slot)?), number::<usize>(place)?);
    if place > list.len() {
        return Err(LineFault::Form("there is no such place"));
    }
    match holds(list, place, slot) {
        Some(held) => {
            out.push_str("holds")?;
            push_contents(alloc, out, &[held])?;
            out.push_str("\n")?;
        }
        None => out.push_str("empty\n")?,
    }
    Ok(())
}

/// `rank POSITION COMMAND`: the stage and the number, whether it is a Send, and whether it is above the last one asked.
pub fn rank_line(
    alloc: Global,
    last: Option<Rank>,
    text: &str,
    out: &mut String,
) -> Result<Rank, LineFault> {
    let (position, told) = halves(text.trim(), " ")?;
    let found = rank_of(alloc, number::<u64>(position)?, told)?;
    push_rank(alloc, out, found)?;
    out.push_str(if last < Some(found) {
        ", above the last\n"
    } else {
        ", not above the last\n"
    })?;
    Ok(found)
}

fn rank_of(alloc: Global, position: Position, text: &str) -> Result<Rank, LineFault> {
    let asked = command(alloc, text)?;
    Ok(rank(position, &asked))
}

fn push_rank(alloc: Global, out: &mut String, found: Rank) -> Result<(), LineFault> {
    let (position, stage, number) = (found.position, found.stage, found.number);
    out.push_str(format!(in alloc; "position {position} stage {stage} number {number}")?.as_str())?;
    out.push_str(if found.later {
        ""
    } else {
        ", before its equals"
    })?;
    Ok(())
}
