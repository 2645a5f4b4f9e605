ghost use Rattle.std.specs.Prelude.{◌≡◌, ◌<◌, ◌++◌, length, IfOk, IsTrue, OnOk};
ghost use Rattle.nim_job.specs.Tasks.{block_forms_of, form_of, stage_forms, stages_of};
ghost use Rattle.nim_job.specs.Whole.{has_refs, is_whole};

use crate::layout::Layout;
use crate::{Job, Stage};
use nim_base::{Copied, NoMemory, TaskForm};
use std::alloc::Global;

/// The tasks of a block in order, their arguments not yet put in. Their meaning is `block_forms_of` of
/// `specs/Tasks.antt`.
pub fn block_forms(alloc: Global, job: &Job, block: u8) -> Result<Vec<TaskForm>, NoMemory>
    requires whole { IsTrue (is_whole job.now) }
    requires block { block < length job.now.blocks }
    ensures { IfOk result (λ forms. forms.items ≡ block_forms_of job.now block) }
{
    let layout = Layout::new(alloc, job.vars.as_slice())?;
    let mut forms = Vec::new(alloc);
    for stage in stages(job, block) {
        push_forms(alloc, &mut forms, &layout, stage)?;
    }
    Ok(forms)
}

/// The stages of a block; none where it isn't there.
fn stages(job: &Job, block: u8) -> &[Stage]
    ensures { result.now ≡ stages_of job.now block }
{
    match job.blocks.as_slice().get(usize::from(block)) {
        Some(found) => found.stages.as_slice(),
        None => &[],
    }
}

/// Appends the tasks of a stage.
fn push_forms(
    alloc: Global,
    forms: &mut Vec<TaskForm>,
    layout: &Layout<'_>,
    stage: &Stage,
) -> Result<(), NoMemory>
    requires { IsTrue (has_refs layout.now.vars.now stage.now) }
    ensures { OnOk result (forms.new.items ≡ forms.old.items ++ stage_forms layout.now.vars.now stage.now) }
{
    for index in 0..layout.task_count(stage) {
        forms.push(form(alloc, layout, stage, index)?)?;
    }
    Ok(())
}

/// Task `index` of a stage.
fn form(alloc: Global, layout: &Layout<'_>, stage: &Stage, index: u32) -> Result<TaskForm, NoMemory>
    requires stage { IsTrue (has_refs layout.now.vars.now stage.now) }
    requires index { index < 64 }
    ensures { IfOk result (λ form. form ≡ form_of layout.now.vars.now stage.now index) }
{
    Ok(TaskForm {
        func: stage.func,
        params: stage.params.copy()?,
        reads: layout.objects(alloc, stage.reads.as_slice(), index)?,
        writes: layout.objects(alloc, stage.writes.as_slice(), index)?,
    })
}
