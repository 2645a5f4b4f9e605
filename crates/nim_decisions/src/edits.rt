use crate::movable::Movable;
use nim_base::{Object, Worker};
use nim_command::{Edit, Spec};
use nim_edit::EditRefused;
use nim_lines::{LineFault, func_name, halves, number, push_count, push_params};
use std::alloc::Global;

/// `move TASK WORKER`: `moved`, or by which rule it is refused.
pub fn move_line(
    template: &mut Movable,
    live: &[bool],
    text: &str,
    out: &mut String,
) -> Result<(), LineFault> {
    let (task, to) = halves(text, " ")?;
    let (task, to) = (number::<u16>(task)?, Worker(number::<u16>(to)?));
    let refused = template.move_to(task, to, live)?;
    out.push_str(told(refused))?;
    out.push_str("\n")?;
    Ok(())
}

fn told(refused: Option<EditRefused>) -> &'static str {
    match refused {
        None => "moved",
        Some(EditRefused::NoSuchBlock) => "no such block",
        Some(EditRefused::NotInstalled) => "not installed",
        Some(EditRefused::NoSuchTask) => "no such task",
        Some(EditRefused::NotLive) => "not live",
        Some(EditRefused::SamePlace) => "same place",
        Some(EditRefused::TooMany) => "too many",
    }
}

/// `unsent`: the edits that wait, a line each, behind their workers.
pub fn push_unsent(
    alloc: Global,
    out: &mut String,
    unsent: &[(Worker, Edit)],
) -> Result<(), LineFault> {
    for (worker, edit) in unsent {
        push_count(alloc, out, "", u64::from(worker.0))?;
        push_edit(alloc, out, edit)?;
        out.push_str("\n")?;
    }
    Ok(())
}

fn push_edit(alloc: Global, out: &mut String, edit: &Edit) -> Result<(), LineFault> {
    match edit {
        Edit::Away {
            task,
            to,
            mask,
            spec,
        } => {
            push_move(alloc, out, ": away ", *task, " to ", *to, *mask)?;
            push_spec(alloc, out, spec)
        }
        Edit::Here {
            task,
            from,
            mask,
            spec,
        } => {
            push_move(alloc, out, ": here ", *task, " from ", *from, *mask)?;
            push_spec(alloc, out, spec)
        }
        Edit::Gone { task } => push_count(alloc, out, ": gone ", u64::from(*task)),
        Edit::Home { task, spec } => {
            push_count(alloc, out, ": home ", u64::from(*task))?;
            push_spec(alloc, out, spec)
        }
    }
}

fn push_move(
    alloc: Global,
    out: &mut String,
    text: &str,
    task: u16,
    between: &str,
    worker: Worker,
    mask: u8,
) -> Result<(), LineFault> {
    push_count(alloc, out, text, u64::from(task))?;
    push_count(alloc, out, between, u64::from(worker.0))?;
    push_count(alloc, out, " mask ", u64::from(mask))
}

fn push_spec(alloc: Global, out: &mut String, spec: &Spec) -> Result<(), LineFault> {
    out.push_str(" ")?;
    out.push_str(func_name(spec.func))?;
    push_params(alloc, out, spec.params.as_slice())?;
    push_reads(alloc, out, spec.reads.as_slice())?;
    push_writes(alloc, out, spec.writes.as_slice())
}

fn push_reads(alloc: Global, out: &mut String, reads: &[(Object, u16)]) -> Result<(), LineFault> {
    out.push_str(" of")?;
    for (object, offset) in reads {
        push_count(alloc, out, " ", u64::from(object.0))?;
        push_count(alloc, out, "+", u64::from(*offset))?;
    }
    Ok(())
}

fn push_writes(alloc: Global, out: &mut String, writes: &[Object]) -> Result<(), LineFault> {
    out.push_str(" ->")?;
    for object in writes {
        push_count(alloc, out, " ", u64::from(object.0))?;
    }
    Ok(())
}
