use nim_base::{Object, Slot, Worker};
use nim_command::{Half, WorkerTemplate};
use nim_lines::{LineFault, push_answer, push_count, push_entry};
use std::alloc::Global;

/// `halves`: the entries, each behind its worker; `as-built`: whether they are those as built; `needs`, `leaves`,
/// `owners`, `homes`.
pub fn list_line(
    alloc: Global,
    template: &WorkerTemplate,
    word: &str,
    out: &mut String,
) -> Result<(), LineFault> {
    match word {
        "halves" => push_halves(alloc, out, template.halves.as_slice()),
        "as-built" => push_answer(out, is_as_built(alloc, template)?),
        "needs" => push_needs(alloc, out, template.preconditions.as_slice()),
        "leaves" => push_leaves(alloc, out, template.effect.as_slice()),
        "owners" => push_workers(alloc, out, template.owners.as_slice()),
        _ => push_workers(alloc, out, template.homes.as_slice()),
    }
}

fn push_halves(alloc: Global, out: &mut String, halves: &[Half]) -> Result<(), LineFault> {
    for (worker, half) in halves.iter().enumerate() {
        push_half(alloc, out, worker as u64, half)?;
    }
    Ok(())
}

fn push_half(alloc: Global, out: &mut String, worker: u64, half: &Half) -> Result<(), LineFault> {
    for entry in half.entries() {
        push_count(alloc, out, "", worker)?;
        out.push_str(": ")?;
        push_entry(alloc, out, entry)?;
    }
    Ok(())
}

fn is_as_built(alloc: Global, template: &WorkerTemplate) -> Result<bool, LineFault> {
    are_same(alloc, template.halves.as_slice(), template.built.as_slice())
}

/// Whether halves have the same entries, by what is shown of them.
pub fn are_same(alloc: Global, some: &[Half], others: &[Half]) -> Result<bool, LineFault> {
    let (mut shown, mut other) = (String::new(alloc), String::new(alloc));
    push_halves(alloc, &mut shown, some)?;
    push_halves(alloc, &mut other, others)?;
    Ok(shown.as_str() == other.as_str())
}

/// Main slots that have to hold the latest version, as `WORKER:OBJECT`.
fn push_needs(
    alloc: Global,
    out: &mut String,
    needs: &[(Worker, Object)],
) -> Result<(), LineFault> {
    out.push_str("needs")?;
    for (worker, object) in needs {
        push_count(alloc, out, " ", u64::from(worker.0))?;
        push_count(alloc, out, ":", u64::from(object.0))?;
    }
    out.push_str("\n")?;
    Ok(())
}

/// Main slots with their last offsets, as `WORKER:SLOT+OFFSET`.
fn push_leaves(
    alloc: Global,
    out: &mut String,
    effect: &[(Worker, Slot, u16)],
) -> Result<(), LineFault> {
    out.push_str("leaves")?;
    for (worker, slot, offset) in effect {
        push_count(alloc, out, " ", u64::from(worker.0))?;
        push_count(alloc, out, ":", u64::from(slot.0))?;
        push_count(alloc, out, "+", u64::from(*offset))?;
    }
    out.push_str("\n")?;
    Ok(())
}

/// The workers of tasks, in order.
fn push_workers(alloc: Global, out: &mut String, workers: &[Worker]) -> Result<(), LineFault> {
    out.push_str("at")?;
    for worker in workers {
        push_count(alloc, out, " ", u64::from(worker.0))?;
    }
    out.push_str("\n")?;
    Ok(())
}
