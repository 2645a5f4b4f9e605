//! The blocks, each looked at with the variables and the blocks before it.

ghost use Rattle.std.specs.Prelude.{◌≡◌, ◌≤◌, ◌<◌, ◌∷◌, [], length, map, true, IfOk, IsTrue, None};
ghost use Rattle.std.specs.List.{list_all, list_any};
ghost use Rattle.nim_job.specs.Whole.{are_vars, is_whole_block};
ghost use Rattle.nim_check.specs.Made.{block_of, var_names, var_of};
ghost use Rattle.nim_check.specs.Names.{has_twice, is_in, reserved};
ghost use Rattle.nim_check.specs.Faults.{told};
ghost use Rattle.nim_check.specs.Refusals.{first_refusal};
ghost use Rattle.nim_lex.specs.Refusals.{Answers};
ghost use Rattle.nim_check.specs.Rules.{rule_of};
ghost use Rattle.nim_check.specs.DriverPlaces.{at_block, places_of_block, places_of_blocks};

use crate::CheckFault;
use crate::names::{has_reserved, has_twice, is_block, is_reserved, is_var, name};
use crate::stages::make_stages;
use nim_base::Seq;
use nim_job::{Block as JobBlock, Var as JobVar};
use nim_lex::Refusal;
use nim_parse::{Block, Var};
use std::alloc::Global;

/// A block or one of its arguments has a reserved name.
const RESERVED: u8 = 41;

/// There is a variable or a block with this name, or two arguments have one name.
const NAMED_TWICE: u8 = 42;

/// There are too many blocks, or too many arguments.
const TOO_MANY: u8 = 44;

/// The blocks of a job, or the first line that a rule refuses.
pub fn make_blocks(
    alloc: Global,
    vars: &[Var],
    job_vars: &[JobVar],
    blocks: &[Block],
) -> Result<Seq<JobBlock>, CheckFault>
    requires vars { job_vars.now ≡ map var_of vars.now }
    requires whole { IsTrue (are_vars job_vars.now) }
    ensures answers { Answers told (first_refusal (places_of_blocks vars.now [] blocks.now)) result }
    ensures made { IfOk result (λ made. made ≡ map (block_of (var_names vars.now)) blocks.now) }
    ensures whole { IfOk result (λ made. list_all (is_whole_block job_vars.now) made ≡ true) }
    ensures number { IfOk result (λ made. length made ≤ 32) }
{
    let mut made = Seq::new(alloc);
    for (at, block) in blocks.iter().enumerate() {
        made.push(make_block(alloc, vars, job_vars, &blocks[..at], block)?)?;
    }
    Ok(made)
}

/// Whether the block or one of its arguments has a reserved name.
fn declares_reserved(block: &Block) -> bool
    ensures { result ≡ list_any (is_in reserved) (block.now.name ∷ block.now.arguments) }
{
    is_reserved(block.name.as_slice()) || has_reserved(block.arguments.as_slice())
}

/// The smallest rule that refuses the head of a block, of which it is known whether an argument stands twice.
#[tactic(auto, unfolding(crate::specs::Rules::rule_of))]
fn block_rule(vars: &[Var], before: &[Block], block: &Block, twice: bool) -> Option<u8>
    requires { twice ≡ has_twice block.now.arguments }
    ensures rule { result ≡ rule_of (at_block vars.now before.now block.now) }
    ensures number { result ≡ None → length before.now < 32 }
    ensures arguments { result ≡ None → length block.now.arguments ≤ 8 }
{
    if declares_reserved(block) {
        Some(RESERVED)
    } else if is_var(vars, block.name.as_slice())
        || is_block(before, block.name.as_slice())
        || twice
    {
        Some(NAMED_TWICE)
    } else if before.len() + 1 > 32 || block.arguments.len() > 8 {
        Some(TOO_MANY)
    } else {
        None
    }
}

/// The block of a job, or the first of its lines that a rule refuses.
fn make_block(
    alloc: Global,
    vars: &[Var],
    job_vars: &[JobVar],
    before: &[Block],
    block: &Block,
) -> Result<JobBlock, CheckFault>
    requires vars { job_vars.now ≡ map var_of vars.now }
    requires whole { IsTrue (are_vars job_vars.now) }
    ensures answers { Answers told (first_refusal (places_of_block vars.now before.now block.now)) result }
    ensures made { IfOk result (λ made. made ≡ block_of (var_names vars.now) block.now) }
    ensures whole { IfOk result (λ made. is_whole_block job_vars.now made ≡ true) }
    ensures number { IfOk result (λ made. length before.now < 32) }
{
    let twice = has_twice(alloc, block.arguments.as_slice())?;
    if let Some(rule) = block_rule(vars, before, block, twice) {
        return Err(CheckFault::At(Refusal {
            line: block.line,
            rule,
        }));
    }
    let stages = make_stages(alloc, vars, job_vars, block)?;
    let name = name(alloc, block.name.as_slice())?;
    Ok(JobBlock {
        name,
        args: block.arguments.len() as u8,
        stages,
    })
}
