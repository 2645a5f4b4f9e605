ghost use Rattle.std.specs.Prelude.{◌≡◌, ◌<◌, ◌==◌, map, nat_le, true, IsTrue};
ghost use Rattle.std.specs.List.{list_all, list_any, sum_by};
ghost use Rattle.nim_job.specs.Tasks.{object_meant, task_count};
ghost use Rattle.nim_job.specs.Whole.{are_distinct, are_vars, has_distinct, is_whole_block, is_param, is_place, is_ref, is_stage};

use crate::layout::{object, task_count};
use crate::{Block, Place, Ref, Stage, Var};
use nim_base::{Object, Param};

/// Whether a place may stand in a stage, with `each` or not.
fn is_place(each: bool, place: Place) -> bool
    ensures { result ≡ is_place each place }
{
    match place {
        Place::Fixed(_) => true,
        Place::Plus(_) => each,
        Place::Minus(_) => each,
    }
}

/// Whether each reference names a variable that is there.
fn are_refs(vars: &[Var], each: bool, refs: &[Ref]) -> bool
    ensures { result ≡ list_all (is_ref vars.now each) refs.now }
{
    for part in refs {
        if part.var as usize >= vars.len() || !is_place(each, part.place) {
            return false;
        }
    }
    true
}

/// Whether a parameter is there, of so many arguments.
fn is_param(args: u8, param: Param) -> bool
    ensures { result ≡ is_param args param }
{
    match param {
        Param::Const(_) => true,
        Param::Arg(number) => number < args,
    }
}

/// Whether each parameter is there.
fn are_params(args: u8, params: &[Param]) -> bool
    ensures { result ≡ list_all (is_param args) params.now }
{
    for param in params {
        if !is_param(args, *param) {
            return false;
        }
    }
    true
}

/// Whether one of these references means the object at task `index` of their stage.
fn means_any(vars: &[Var], index: u32, refs: &[Ref], sought: Object) -> bool
    requires vars { IsTrue (are_vars vars.now) }
    requires refs { IsTrue (list_all (is_ref vars.now true) refs.now) }
    requires index { index < 64 }
    ensures { result ≡ list_any (λ o. o.0 == sought.0) (map (object_meant vars.now index) refs.now) }
{
    for reference in refs {
        if object(vars, *reference, index).0 == sought.0 {
            return true;
        }
    }
    false
}

/// Whether these references mean no object twice at task `index` of their stage.
fn are_distinct(vars: &[Var], index: u32, refs: &[Ref]) -> bool
    requires vars { IsTrue (are_vars vars.now) }
    requires refs { IsTrue (list_all (is_ref vars.now true) refs.now) }
    requires index { index < 64 }
    ensures { result ≡ are_distinct (map (object_meant vars.now index) refs.now) }
{
    let mut rest = refs;
    while let Some((first, others)) = rest.split_first() {
        if means_any(vars, index, others, object(vars, *first, index)) {
            return false;
        }
        rest = others;
    }
    true
}

/// Whether no task of a stage writes an object twice. Its meaning is `has_distinct` of `specs/Whole.antt`. Takes no
/// memory.
pub fn has_distinct(vars: &[Var], stage: &Stage) -> bool
    requires vars { IsTrue (are_vars vars.now) }
    requires writes { IsTrue (list_all (is_ref vars.now stage.now.each) stage.now.writes) }
    ensures { result ≡ has_distinct vars.now stage.now }
{
    for index in 0..task_count(vars, stage) {
        if !are_distinct(vars, index, stage.writes.as_slice()) {
            return false;
        }
    }
    true
}

/// Whether a stage is whole.
fn is_stage(vars: &[Var], args: u8, stage: &Stage) -> bool
    requires { IsTrue (are_vars vars.now) }
    ensures { result ≡ is_stage vars.now args stage.now }
{
    stage
        .func
        .has_counts(stage.params.len(), stage.reads.len(), stage.writes.len())
        && are_params(args, stage.params.as_slice())
        && are_refs(vars, stage.each, stage.reads.as_slice())
        && are_refs(vars, stage.each, stage.writes.as_slice())
        && has_distinct(vars, stage)
}

/// Whether each stage is whole.
fn are_stages(vars: &[Var], args: u8, stages: &[Stage]) -> bool
    requires { IsTrue (are_vars vars.now) }
    ensures { result ≡ list_all (is_stage vars.now args) stages.now }
{
    for stage in stages {
        if !is_stage(vars, args, stage) {
            return false;
        }
    }
    true
}

/// Whether stages have at most 1,024 tasks.
fn are_few_tasks(vars: &[Var], stages: &[Stage]) -> bool
    ensures { result ≡ nat_le (sum_by (task_count vars.now) stages.now) 1024 }
{
    let mut tasks: u64 = 0;
    for stage in stages {
        tasks += task_count(vars, stage) as u64;
        if tasks > 1024 {
            return false;
        }
    }
    true
}

/// Whether each block is whole.
pub(super) fn are_blocks(vars: &[Var], blocks: &[Block]) -> bool
    requires { IsTrue (are_vars vars.now) }
    ensures { result ≡ list_all (is_whole_block vars.now) blocks.now }
{
    for block in blocks {
        if block.args > 8
            || !are_few_tasks(vars, block.stages.as_slice())
            || !are_stages(vars, block.args, block.stages.as_slice())
        {
            return false;
        }
    }
    true
}
