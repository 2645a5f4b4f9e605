//! The stages of a block, each looked at with those before it.

ghost use Rattle.std.specs.Prelude.{◌≡◌, ◌≤◌, ◌+◌, ◌&&◌, [], length, map, not, true, unwrap_or, IfOk, IsTrue, None};
ghost use Rattle.std.specs.List.{list_all, list_any, sum_by};
ghost use Rattle.nim_base.specs.Apply.{has_counts};
ghost use Rattle.nim_base.specs.declared.task.Func.TheVariants as func;
ghost use Rattle.nim_job.specs.Tasks.{task_count};
ghost use Rattle.nim_job.specs.Whole.{are_vars, is_stage};
ghost use Rattle.nim_check.specs.Made.{param_of, place_of, ref_of, stage_of, var_names, var_of};
ghost use Rattle.nim_check.specs.Names.{func_of, is_in};
ghost use Rattle.nim_check.specs.Faults.{told};
ghost use Rattle.nim_check.specs.Refusals.{first_refusal};
ghost use Rattle.nim_lex.specs.Refusals.{Answers};
ghost use Rattle.nim_check.specs.Rules.{is_known, is_own, refs_of, rule_of};
ghost use Rattle.nim_check.specs.DriverPlaces.{at_stage, places_of_stages};

use crate::CheckFault;
use crate::names::{func_of, is_in, is_var, place_in, var_place};
use nim_base::{Func, NoMemory, Param, Seq};
use nim_job::{Place, Ref as JobRef, Stage as JobStage, Var as JobVar, has_distinct, task_count};
use nim_lex::Refusal;
use nim_parse::{Atom, Block, Index, Ref, Stage, Var};
use std::alloc::Global;

/// There is no function with this name.
const NO_FUNCTION: u8 = 45;

/// A stage has other counts than its function.
const OTHER_COUNTS: u8 = 46;

/// There is no variable with this name.
const NO_VARIABLE: u8 = 47;

/// A reference has the task's own number in a stage without `each i`.
const STRAY_OWN: u8 = 48;

/// Two tasks of a stage write one object, or one writes it twice.
const WRITES_TWICE: u8 = 49;

/// A parameter is none of the block's arguments.
const NO_ARGUMENT: u8 = 50;

/// A block has too many tasks.
const TOO_MANY_TASKS: u8 = 51;

/// The stages of a job's block, or the first line that a rule refuses.
pub fn make_stages(
    alloc: Global,
    vars: &[Var],
    job_vars: &[JobVar],
    block: &Block,
) -> Result<Seq<JobStage>, CheckFault>
    requires vars { job_vars.now ≡ map var_of vars.now }
    requires whole { IsTrue (are_vars job_vars.now) }
    requires arguments { length block.now.arguments ≤ 8 }
    ensures answers { Answers told (first_refusal (places_of_stages vars.now block.now [] block.now.stages)) result }
    ensures made { IfOk result (λ made. made ≡ map (stage_of (var_names vars.now) block.now.arguments)
        block.now.stages) }
    ensures whole { IfOk result (λ made. list_all (is_stage job_vars.now (length block.now.arguments)) made ≡ true) }
    ensures few { IfOk result (λ made. sum_by (task_count job_vars.now) made ≤ 1024) }
{
    let stages = block.stages.as_slice();
    let mut made = Seq::new(alloc);
    let mut tasks = 0;
    for (at, stage) in stages.iter().enumerate() {
        let next = stage_of(alloc, vars, block.arguments.as_slice(), stage)?;
        if let Some(rule) = stage_rule(vars, block, &stages[..at], stage, job_vars, &next, tasks) {
            return Err(CheckFault::At(Refusal {
                line: stage.line,
                rule,
            }));
        }
        tasks += u64::from(task_count(job_vars, &next));
        made.push(next)?;
    }
    Ok(made)
}

/// Whether each of these is a number, or one of the words.
pub fn are_known(words: &[Seq<u8>], atoms: &[Atom]) -> bool
    ensures { result ≡ list_all (is_known words.now) atoms.now }
{
    for atom in atoms {
        if !is_known(words, atom) {
            return false;
        }
    }
    true
}

/// Whether this is a number, or one of the words.
pub fn is_known(words: &[Seq<u8>], atom: &Atom) -> bool
    ensures { result ≡ is_known words.now atom.now }
{
    match atom {
        Atom::Number(_) => true,
        Atom::Name(word) => is_in(words, word.as_slice()),
    }
}

fn place_of(index: Index) -> Place
    ensures { result ≡ place_of index }
{
    match index {
        Index::Part(number) => Place::Fixed(number),
        Index::Own => Place::Plus(0),
        Index::After(number) => Place::Plus(number),
        Index::Before(number) => Place::Minus(number),
    }
}

fn refs_of(alloc: Global, vars: &[Var], refs: &[Ref]) -> Result<Seq<JobRef>, NoMemory>
    requires { length vars.now ≤ 32 }
    ensures { IfOk result (λ made. made ≡ map (ref_of (var_names vars.now)) refs.now) }
{
    let mut made = Seq::new(alloc);
    for part in refs {
        made.push(JobRef {
            var: var_place(vars, part.name.as_slice()) as u8,
            place: place_of(part.index),
        })?;
    }
    Ok(made)
}

fn param_of(arguments: &[Seq<u8>], parameter: &Atom) -> Param
    requires { length arguments.now ≤ 8 }
    ensures { result ≡ param_of arguments.now parameter.now }
{
    match parameter {
        Atom::Number(number) => Param::Const(*number),
        Atom::Name(word) => Param::Arg(place_in(arguments, word.as_slice()) as u8),
    }
}

fn params_of(
    alloc: Global,
    arguments: &[Seq<u8>],
    parameters: &[Atom],
) -> Result<Seq<Param>, NoMemory>
    requires { length arguments.now ≤ 8 }
    ensures { IfOk result (λ made. made ≡ map (param_of arguments.now) parameters.now) }
{
    let mut made = Seq::new(alloc);
    for parameter in parameters {
        made.push(param_of(arguments, parameter))?;
    }
    Ok(made)
}

fn function_of(word: &[u8]) -> Func
    ensures { result ≡ unwrap_or (func_of word.now) func.Set }
{
    match func_of(word) {
        Some(found) => found,
        None => Func::Set,
    }
}

/// A stage by numbers. What isn't there has the number behind the last.
fn stage_of(
    alloc: Global,
    vars: &[Var],
    arguments: &[Seq<u8>],
    stage: &Stage,
) -> Result<JobStage, NoMemory>
    requires vars { length vars.now ≤ 32 }
    requires arguments { length arguments.now ≤ 8 }
    ensures { IfOk result (λ made. made ≡ stage_of (var_names vars.now) arguments.now stage.now) }
{
    Ok(JobStage {
        func: function_of(stage.function.as_slice()),
        reads: refs_of(alloc, vars, stage.reads.as_slice())?,
        writes: refs_of(alloc, vars, stage.writes.as_slice())?,
        params: params_of(alloc, arguments, stage.parameters.as_slice())?,
        each: stage.each,
    })
}

/// Whether each of these names a variable.
fn name_vars(vars: &[Var], refs: &[Ref]) -> bool
    ensures { result ≡ list_all (λ ref. is_in (var_names vars.now) ref.name) refs.now }
{
    for part in refs {
        if !is_var(vars, part.name.as_slice()) {
            return false;
        }
    }
    true
}

/// Whether each reference of a stage names a variable.
#[tactic(auto, using(crate::proofs::StageTests::all_refs))]
fn has_vars(vars: &[Var], stage: &Stage) -> bool
    ensures { result ≡ list_all (λ ref. is_in (var_names vars.now) ref.name) (refs_of stage.now) }
{
    name_vars(vars, stage.reads.as_slice()) && name_vars(vars, stage.writes.as_slice())
}

fn is_own(index: Index) -> bool
    ensures { result ≡ is_own index }
{
    !matches!(index, Index::Part(_))
}

/// Whether one of these has the task's own number.
fn name_own(refs: &[Ref]) -> bool
    ensures { result ≡ list_any (λ ref. is_own ref.index) refs.now }
{
    for part in refs {
        if is_own(part.index) {
            return true;
        }
    }
    false
}

/// Whether a reference of a stage has the task's own number.
#[tactic(auto, using(crate::proofs::StageTests::any_refs))]
fn has_own(stage: &Stage) -> bool
    ensures { result ≡ list_any (λ ref. is_own ref.index) (refs_of stage.now) }
{
    name_own(stage.reads.as_slice()) || name_own(stage.writes.as_slice())
}

/// Whether a reference of a stage without `each i` has the task's own number.
fn has_stray_own(stage: &Stage) -> bool
    ensures { result ≡ (not stage.now.each && list_any (λ ref. is_own ref.index) (refs_of stage.now)) }
{
    !stage.each && has_own(stage)
}

/// Whether a stage has its function's counts.
fn has_counts(stage: &Stage) -> bool
    ensures { result ≡ has_counts (unwrap_or (func_of stage.now.function) func.Set) (length stage.now.parameters)
        (length stage.now.reads) (length stage.now.writes) }
{
    function_of(stage.function.as_slice()).has_counts(
        stage.parameters.len(),
        stage.reads.len(),
        stage.writes.len(),
    )
}

/// The smallest rule that refuses a stage, of which this was made; so many tasks are before it.
#[tactic(auto, unfolding(crate::specs::Rules::rule_of))]
fn stage_rule(
    vars: &[Var],
    block: &Block,
    before: &[Stage],
    stage: &Stage,
    job_vars: &[JobVar],
    made: &JobStage,
    tasks: u64,
) -> Option<u8>
    requires vars { job_vars.now ≡ map var_of vars.now }
    requires whole { IsTrue (are_vars job_vars.now) }
    requires made { made.now ≡ stage_of (var_names vars.now) block.now.arguments stage.now }
    requires tasks { tasks ≡ sum_by (task_count job_vars.now)
        (map (stage_of (var_names vars.now) block.now.arguments) before.now) }
    requires few { tasks ≤ 1024 }
    ensures rule { result ≡ rule_of (at_stage vars.now block.now before.now stage.now) }
    ensures whole { result ≡ None → is_stage job_vars.now (length block.now.arguments) made.now ≡ true }
    ensures few { result ≡ None → tasks + task_count job_vars.now made.now ≤ 1024 }
{
    if func_of(stage.function.as_slice()).is_none() {
        Some(NO_FUNCTION)
    } else if !has_counts(stage) {
        Some(OTHER_COUNTS)
    } else if !has_vars(vars, stage) {
        Some(NO_VARIABLE)
    } else if has_stray_own(stage) {
        Some(STRAY_OWN)
    } else if !has_distinct(job_vars, made) {
        Some(WRITES_TWICE)
    } else if !are_known(block.arguments.as_slice(), stage.parameters.as_slice()) {
        Some(NO_ARGUMENT)
    } else if tasks + u64::from(task_count(job_vars, made)) > 1024 {
        Some(TOO_MANY_TASKS)
    } else {
        None
    }
}
