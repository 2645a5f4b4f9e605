use crate::shapes::push_contents;
use crate::values::push_value;
use nim_base::{Copied, Object, Position, Value, Version, Worker};
use nim_lines::{LineFault, push_count};
use nim_message::{Data, FromWorker};
use nim_worker::Out;
use std::alloc::Global;

/// Adds a line for each report and each frame for another worker, of copies of them.
pub fn push_outs(alloc: Global, out: &mut String, outs: &[Out]) -> Result<(), LineFault> {
    for given in outs {
        push_out(alloc, out, given)?;
    }
    Ok(())
}

fn push_out(alloc: Global, out: &mut String, given: &Out) -> Result<(), LineFault> {
    match given {
        Out::Report(report) => push_report_copied(alloc, out, report),
        Out::Data(peer, frame) => push_frame_copied(alloc, out, *peer, frame),
    }
}

fn push_report_copied(
    alloc: Global,
    out: &mut String,
    report: &FromWorker,
) -> Result<(), LineFault> {
    let copied = report.copy()?;
    push_report(alloc, out, &copied)
}

fn push_frame_copied(
    alloc: Global,
    out: &mut String,
    peer: Worker,
    frame: &Data,
) -> Result<(), LineFault> {
    let copied = frame.copy()?;
    push_frame(alloc, out, peer, &copied)
}

/// Adds a line with a frame for another worker, without its epoch: `data to WORKER INSTANCE ENTRY OBJECT@VERSION:
/// VALUE`.
fn push_frame(
    alloc: Global,
    out: &mut String,
    peer: Worker,
    frame: &Data,
) -> Result<(), LineFault> {
    push_count(alloc, out, "data to ", u64::from(peer.0))?;
    push_count(alloc, out, " ", u64::from(frame.instance))?;
    push_count(alloc, out, " ", u64::from(frame.entry))?;
    push_contents(alloc, out, &[(frame.object, frame.version)])?;
    out.push_str(": ")?;
    push_value(alloc, out, &frame.value)
}

/// Adds a line with a report, without its epoch: `ran POSITION: OBJECT@VERSION ..`, or
/// `value OBJECT@VERSION ticket T: VALUE`, `through INSTANCE`, `down WORKER`, `memory`.
fn push_report(alloc: Global, out: &mut String, report: &FromWorker) -> Result<(), LineFault> {
    match report {
        FromWorker::Ran {
            position,
            reads,
            ..
        } => push_ran(alloc, out, *position, reads.as_slice()),
        FromWorker::Value {
            ticket,
            object,
            version,
            value,
            ..
        } => push_told(alloc, out, (*object, *version), *ticket, value),
        FromWorker::Through { instance, .. } => {
            push_numbered(alloc, out, "through ", u64::from(*instance))
        }
        FromWorker::PeerDown { peer } => push_numbered(alloc, out, "down ", u64::from(peer.0)),
        FromWorker::NoMemory => push_text(out, "memory\n"),
    }
}

fn push_ran(
    alloc: Global,
    out: &mut String,
    position: Position,
    reads: &[(Object, Version)],
) -> Result<(), LineFault> {
    push_count(alloc, out, "ran ", position)?;
    out.push_str(":")?;
    push_contents(alloc, out, reads)?;
    push_text(out, "\n")
}

fn push_told(
    alloc: Global,
    out: &mut String,
    content: (Object, Version),
    ticket: u32,
    value: &Value,
) -> Result<(), LineFault> {
    out.push_str("value")?;
    push_contents(alloc, out, &[content])?;
    push_count(alloc, out, " ticket ", u64::from(ticket))?;
    out.push_str(": ")?;
    push_value(alloc, out, value)
}

fn push_numbered(
    alloc: Global,
    out: &mut String,
    text: &str,
    number: u64,
) -> Result<(), LineFault> {
    push_count(alloc, out, text, number)?;
    push_text(out, "\n")
}

/// Adds a text.
pub fn push_text(out: &mut String, text: &str) -> Result<(), LineFault> {
    out.push_str(text)?;
    Ok(())
}
