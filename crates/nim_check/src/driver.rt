ghost use Rattle.std.specs.Prelude.{◌≡◌, ◌≤◌, IfErr, IfOk, IsTrue, None};
ghost use Rattle.nim_job.specs.Whole.{is_checked, is_whole};
ghost use Rattle.nim_parse.specs.Driver.{tree_of};
ghost use Rattle.nim_check.specs.Made.{block_names, job_of, steps_of, var_names};
ghost use Rattle.nim_check.specs.Faults.{TellsFile, told};
ghost use Rattle.nim_check.specs.Refusals.{driver_refusal, first_refusal, job_from, tree_refusal, job_refusal, text_refusal};
ghost use Rattle.nim_lex.specs.Refusals.{Answers};
ghost use Rattle.nim_check.specs.DriverPlaces.{places_of_steps};

use crate::blocks::make_blocks;
use crate::body::{Names, make_body};
use crate::loading::load;
use crate::statements::scalars_of;
use crate::vars::make_vars;
use crate::{CheckFault, Input, ReadFault};
use nim_base::{Copied, NoMemory, Seq};
use nim_job::Job;
use nim_lex::{LexFault, Refusal, tokens};
use nim_parse::{Block, ParseFault, Steps, Tree, Var, parse};
use std::alloc::Global;

/// A `steps` line has less than 1 or more than 1,000,000.
const BAD_STEPS: u8 = 40;

/// The most statements that are counted, where the driver doesn't say.
const MOST_STEPS: u32 = 1_000_000;

/// The job that a tree stands for, or the first line that a rule refuses, with the smallest rule that does. The rules
/// are defined in `specs/Rules.antt`, the job in `specs/Made.antt`. Loaded data are still missing in it. Want of memory
/// may come in place of any answer.
pub fn check(alloc: Global, tree: &Tree) -> Result<Job, CheckFault>
    ensures answers { Answers told (tree_refusal tree.now) result }
    ensures job { IfOk result (λ job. job ≡ job_of tree.now) }
    ensures checked { IfOk result (λ job. IsTrue (is_checked job)) }
{
    let lines = tree.sections();
    let (vars, blocks) = (lines.vars.as_slice(), lines.blocks.as_slice());
    let steps = steps_of(lines.steps)?;
    let job_vars = make_vars(alloc, vars)?;
    let job_blocks = make_blocks(alloc, vars, job_vars.as_slice(), blocks)?;
    let scalars = scalars_of(alloc, lines)?;
    let names = Names {
        vars: names_of_vars(alloc, vars)?,
        blocks: names_of_blocks(alloc, blocks)?,
        scalars,
    };
    let body = make_body(alloc, &names, lines.statements.as_slice())?;
    Ok(Job {
        steps,
        vars: job_vars,
        blocks: job_blocks,
        body,
    })
}

/// The job that a driver stands for, or its first refused line, with the smallest rule that refuses it: first the rules
/// of the text are looked at, then those of the grammar, then those of `check`. Loaded data are still missing in it.
/// Want of memory may come in place of any answer.
pub fn read_driver(alloc: Global, bytes: &[u8]) -> Result<Job, CheckFault>
    ensures answers { Answers told (driver_refusal bytes.now) result }
    ensures job { IfOk result (λ job. job ≡ job_of (tree_of bytes.now)) }
    ensures checked { IfOk result (λ job. IsTrue (is_checked job)) }
{
    let tree = tree_of(alloc, bytes)?;
    check(alloc, &tree)
}

/// The whole job that a driver and its data stand for, or the first refused line of the first file that has one, with
/// the smallest rule that refuses it. A driver without loaded variables takes data without parts. Want of memory may
/// come in place of any answer.
pub fn read_job(alloc: Global, driver: &[u8], data_file: &[u8]) -> Result<Job, ReadFault>
    ensures accepted { IfOk result (λ job. job_refusal driver.now data_file.now ≡ None) }
    ensures job { IfOk result (λ job. job ≡ job_from driver.now data_file.now) }
    ensures whole { IfOk result (λ job. IsTrue (is_whole job)) }
    ensures refused { IfErr result (TellsFile (job_refusal driver.now data_file.now)) }
{
    let mut job = match read_driver(alloc, driver) {
        Ok(job) => job,
        Err(fault) => return Err(fault.within(Input::Driver)),
    };
    match load(alloc, &mut job, data_file) {
        Ok(()) => Ok(job),
        Err(fault) => Err(fault.within(Input::Data)),
    }
}

/// The most statements that a run counts, or the line that a rule refuses.
#[tactic(auto, unfolding(crate::specs::Rules::rule_of))]
fn steps_of(steps: Option<Steps>) -> Result<u32, CheckFault>
    ensures answers { Answers told (first_refusal (places_of_steps steps)) result }
    ensures steps { IfOk result (λ most. most ≡ steps_of steps) }
    ensures some { IfOk result (λ most. 1 ≤ most) }
    ensures few { IfOk result (λ most. most ≤ 1000000) }
{
    match steps {
        Some(Steps { line, most }) => {
            if most < 1 || most > 1_000_000 {
                return Err(CheckFault::At(Refusal {
                    line,
                    rule: BAD_STEPS,
                }));
            }
            Ok(most as u32)
        }
        None => Ok(MOST_STEPS),
    }
}

fn names_of_vars(alloc: Global, vars: &[Var]) -> Result<Seq<Seq<u8>>, NoMemory>
    ensures { IfOk result (λ names. names ≡ var_names vars.now) }
{
    let mut names = Seq::new(alloc);
    for var in vars {
        names.push(var.name.copy()?)?;
    }
    Ok(names)
}

fn names_of_blocks(alloc: Global, blocks: &[Block]) -> Result<Seq<Seq<u8>>, NoMemory>
    ensures { IfOk result (λ names. names ≡ block_names blocks.now) }
{
    let mut names = Seq::new(alloc);
    for block in blocks {
        names.push(block.name.copy()?)?;
    }
    Ok(names)
}

fn tree_of(alloc: Global, bytes: &[u8]) -> Result<Tree, CheckFault>
    ensures answers { Answers told (text_refusal bytes.now) result }
    ensures tree { IfOk result (λ tree. tree ≡ tree_of bytes.now) }
{
    let all = match tokens(alloc, bytes) {
        Ok(all) => all,
        Err(LexFault::At(refusal)) => return Err(CheckFault::At(refusal)),
        Err(LexFault::NoMemory) => return Err(CheckFault::NoMemory),
    };
    match parse(alloc, bytes, all.as_slice()) {
        Ok(tree) => Ok(tree),
        Err(ParseFault::At(refusal)) => Err(CheckFault::At(refusal)),
        Err(ParseFault::NoMemory) => Err(CheckFault::NoMemory),
    }
}
