//! The text of a summary.

ghost use Rattle.std.specs.Prelude.{◌≡◌, ◌++◌, string_bytes, IfOk, OnOk};
ghost use Rattle.std.specs.List.{flat_map};
ghost use Rattle.nim_course.specs.SummaryText as spec;

use crate::{EditLine, Rollback, Summary, WorkerLine};
use nim_base::NoMemory;
use nim_edit::EditRefused;
use std::alloc::Global;

impl Summary {
    /// Its lines, as `--summary` prints them: their meaning is `text_of_summary` of `specs/SummaryText.antt`.
    pub fn text(&self, alloc: Global) -> Result<Vec<u8>, NoMemory>
        ensures { IfOk result (λ text. text.items ≡ spec.text_of_summary self.now) }
    {
        let mut text = Vec::new(alloc);
        push_counts(alloc, self, &mut text)?;
        push_edits(alloc, self.edits.as_slice(), &mut text)?;
        push_rollbacks(alloc, self.rollbacks.as_slice(), &mut text)?;
        push_control(alloc, self.control, &mut text)?;
        push_workers(alloc, self.workers.as_slice(), &mut text)?;
        Ok(text)
    }
}

/// What is counted of instances, of patches and of edits, a line each.
fn push_counts(alloc: Global, summary: &Summary, text: &mut Vec<u8>) -> Result<(), NoMemory>
    ensures { OnOk result (text.new.items ≡ text.old.items ++ spec.counts_lines summary.now) }
{
    text.extend_from_slice(instances_line(alloc, summary)?.as_bytes())?;
    text.extend_from_slice(patches_line(alloc, summary)?.as_bytes())?;
    text.extend_from_slice(edits_line(alloc, summary)?.as_bytes())?;
    Ok(())
}

fn instances_line(alloc: Global, summary: &Summary) -> Result<String, NoMemory>
    ensures { IfOk result (λ line. string_bytes line ≡ spec.instances_line summary.now) }
{
    let Summary {
        instances,
        single,
        installed,
        cached,
        ..
    } = summary;
    Ok(format!(in alloc;
        "instances {instances} single {single} installed {installed} cached {cached}\n"
    )?)
}

fn patches_line(alloc: Global, summary: &Summary) -> Result<String, NoMemory>
    ensures { IfOk result (λ line. string_bytes line ≡ spec.patches_line summary.now) }
{
    let Summary { made, repeated, .. } = summary;
    Ok(format!(in alloc; "patches made {made} repeated {repeated}\n")?)
}

fn edits_line(alloc: Global, summary: &Summary) -> Result<String, NoMemory>
    ensures { IfOk result (λ line. string_bytes line ≡ spec.edits_line summary.now) }
{
    let Summary { taken, refused, .. } = summary;
    Ok(format!(in alloc; "edits taken {taken} refused {refused}\n")?)
}

/// A line for each proposal.
fn push_edits(alloc: Global, edits: &[EditLine], text: &mut Vec<u8>) -> Result<(), NoMemory>
    ensures { OnOk result (text.new.items ≡ text.old.items ++ flat_map spec.edit_line edits.now) }
{
    for edit in edits {
        text.extend_from_slice(edit_line(alloc, edit)?.as_bytes())?;
    }
    Ok(())
}

fn edit_line(alloc: Global, edit: &EditLine) -> Result<String, NoMemory>
    ensures { IfOk result (λ line. string_bytes line ≡ spec.edit_line edit.now) }
{
    let block = edit.block.as_str();
    let answer = answer_text(edit.refused);
    let EditLine { task, to, .. } = edit;
    Ok(format!(in alloc; "edit {block} {task} {to} {answer}\n")?)
}

/// What came of a proposal.
fn answer_text(refused: Option<EditRefused>) -> &'static str
    ensures { result.now ≡ spec.answer_text refused }
{
    match refused {
        None => "taken",
        Some(EditRefused::NoSuchBlock) => "refused no-such-block",
        Some(EditRefused::NotInstalled) => "refused not-installed",
        Some(EditRefused::NoSuchTask) => "refused no-such-task",
        Some(EditRefused::NotLive) => "refused not-live",
        Some(EditRefused::SamePlace) => "refused same-place",
        Some(EditRefused::TooMany) => "refused too-many",
    }
}

/// How many rollbacks there are, and a line for each.
fn push_rollbacks(alloc: Global, rollbacks: &[Rollback], text: &mut Vec<u8>) -> Result<(), NoMemory>
    ensures { OnOk result (text.new.items ≡ text.old.items ++ spec.rollbacks_lines rollbacks.now) }
{
    let count = rollbacks.len();
    text.extend_from_slice(format!(in alloc; "rollbacks {count}\n")?.as_bytes())?;
    push_each_rollback(alloc, rollbacks, text)
}

fn push_each_rollback(
    alloc: Global,
    rollbacks: &[Rollback],
    text: &mut Vec<u8>,
) -> Result<(), NoMemory>
    ensures { OnOk result (text.new.items ≡ text.old.items ++ spec.rollback_lines 0 rollbacks.now) }
{
    for (number, rollback) in rollbacks.iter().enumerate() {
        text.extend_from_slice(rollback_line(alloc, number, rollback)?.as_bytes())?;
    }
    Ok(())
}

fn rollback_line(alloc: Global, number: usize, rollback: &Rollback) -> Result<String, NoMemory>
    ensures { IfOk result (λ line. string_bytes line ≡ spec.rollback_line number rollback.now) }
{
    let worker = rollback.worker.0;
    let position = rollback.position;
    Ok(format!(in alloc; "rollback {number} worker {worker} position {position}\n")?)
}

/// The bytes of all orders.
fn push_control(alloc: Global, control: u64, text: &mut Vec<u8>) -> Result<(), NoMemory>
    ensures { OnOk result (text.new.items ≡ text.old.items ++ spec.control_line control) }
{
    text.extend_from_slice(format!(in alloc; "control {control}\n")?.as_bytes())?;
    Ok(())
}

/// A line for each worker.
fn push_workers(alloc: Global, workers: &[WorkerLine], text: &mut Vec<u8>) -> Result<(), NoMemory>
    ensures { OnOk result (text.new.items ≡ text.old.items ++ spec.worker_lines 0 workers.now) }
{
    for (number, worker) in workers.iter().enumerate() {
        text.extend_from_slice(worker_line(alloc, number, worker)?.as_bytes())?;
    }
    Ok(())
}

fn worker_line(alloc: Global, number: usize, worker: &WorkerLine) -> Result<String, NoMemory>
    ensures { IfOk result (λ line. string_bytes line ≡ spec.worker_line number worker.now) }
{
    let live = live_text(worker.live);
    let WorkerLine { tasks, orders, .. } = worker;
    Ok(format!(in alloc; "worker {number} {live} tasks {tasks} orders {orders}\n")?)
}

/// Whether a worker is live, as a word.
fn live_text(live: bool) -> &'static str
    ensures { result.now ≡ spec.live_text live }
{
    if live { "live" } else { "lost" }
}
