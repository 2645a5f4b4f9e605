//! The variables, each looked at with those before it.

ghost use Rattle.std.specs.Prelude.{◌≡◌, ◌≤◌, ◌++◌, ◌∷◌, [], map, true, IfOk, None};
ghost use Rattle.std.specs.List.{sum_by};
ghost use Rattle.nim_job.specs.Objects.{objects_of};
ghost use Rattle.nim_job.specs.Whole.{are_vars, cells_in, is_var};
ghost use Rattle.nim_check.specs.Made.{init_of, var_of};
ghost use Rattle.nim_check.specs.Faults.{told};
ghost use Rattle.nim_check.specs.Refusals.{first_refusal};
ghost use Rattle.nim_lex.specs.Refusals.{Answers};
ghost use Rattle.nim_check.specs.Rules.{are_few, rule_of};
ghost use Rattle.nim_check.specs.DriverPlaces.{at_var, places_of_vars};

use crate::CheckFault;
use crate::names::{is_reserved, is_var, name};
use nim_base::{NoMemory, Seq, Shape};
use nim_job::{Init as JobInit, Var as JobVar};
use nim_lex::Refusal;
use nim_parse::{Init, Var};
use std::alloc::Global;

/// A variable has a reserved name.
const RESERVED: u8 = 41;

/// There is a variable with this name.
const NAMED_TWICE: u8 = 42;

/// A size is none that a variable may have.
const BAD_SIZE: u8 = 43;

/// There is no room for one more variable.
const TOO_MANY: u8 = 44;

/// The variables of a job, or the first line that a rule refuses.
pub fn make_vars(alloc: Global, vars: &[Var]) -> Result<Seq<JobVar>, CheckFault>
    ensures answers { Answers told (first_refusal (places_of_vars [] vars.now)) result }
    ensures made { IfOk result (λ made. made ≡ map var_of vars.now) }
    ensures whole { IfOk result (λ made. are_vars made ≡ true) }
{
    let mut made = Seq::new(alloc);
    let mut objects = 0;
    let mut cells = 0;
    for (at, var) in vars.iter().enumerate() {
        if let Some(rule) = var_rule(&vars[..at], var, objects, cells) {
            return Err(CheckFault::At(Refusal {
                line: var.line,
                rule,
            }));
        }
        objects += var.parts;
        cells += var.parts * (var.width * var.rows);
        made.push(var_of(alloc, var)?)?;
    }
    Ok(made)
}

/// Whether a variable has the sizes that one may have.
fn is_small(var: &Var) -> bool
    ensures { result ≡ is_var (var_of var.now) }
{
    var.parts >= 1
        && var.parts <= 64
        && var.width >= 1
        && var.width <= 65536
        && var.rows >= 1
        && var.rows <= 65536
        && var.width * var.rows <= 65536
}

/// Whether there is room for a variable behind those before it, which have so many objects and cells.
#[tactic(auto, using(crate::proofs::Room::few_more))]
fn has_room(before: &[Var], var: &Var, objects: u64, cells: u64) -> bool
    requires small { is_var (var_of var.now) ≡ true }
    requires objects { objects ≡ objects_of (map var_of before.now) }
    requires cells { cells ≡ sum_by cells_in (map var_of before.now) }
    requires few { objects ≤ 512 }
    requires low { cells ≤ 1048576 }
    ensures { result ≡ are_few (map var_of (before.now ++ var.now ∷ [])) }
{
    before.len() + 1 <= 32
        && objects + var.parts <= 512
        && cells + var.parts * (var.width * var.rows) <= 1_048_576
}

/// The smallest rule that refuses a variable.
#[tactic(auto, unfolding(crate::specs::Rules::rule_of))]
fn var_rule(before: &[Var], var: &Var, objects: u64, cells: u64) -> Option<u8>
    requires objects { objects ≡ objects_of (map var_of before.now) }
    requires cells { cells ≡ sum_by cells_in (map var_of before.now) }
    requires few { objects ≤ 512 }
    requires low { cells ≤ 1048576 }
    ensures rule { result ≡ rule_of (at_var before.now var.now) }
    ensures small { result ≡ None → is_var (var_of var.now) ≡ true }
    ensures room { result ≡ None → are_few (map var_of (before.now ++ var.now ∷ [])) ≡ true }
{
    if is_reserved(var.name.as_slice()) {
        Some(RESERVED)
    } else if is_var(before, var.name.as_slice()) {
        Some(NAMED_TWICE)
    } else if !is_small(var) {
        Some(BAD_SIZE)
    } else if !has_room(before, var, objects, cells) {
        Some(TOO_MANY)
    } else {
        None
    }
}

fn init_of(alloc: Global, init: Init) -> JobInit
    ensures { result ≡ init_of init }
{
    match init {
        Init::Fill(number) => JobInit::Fill(number),
        Init::Iota => JobInit::Iota,
        Init::Load => JobInit::Loaded(Seq::new(alloc)),
    }
}

fn var_of(alloc: Global, var: &Var) -> Result<JobVar, NoMemory>
    requires { is_var (var_of var.now) ≡ true }
    ensures { IfOk result (λ made. made ≡ var_of var.now) }
{
    let name = name(alloc, var.name.as_slice())?;
    Ok(JobVar {
        name,
        parts: var.parts as u32,
        shape: Shape {
            width: var.width as u32,
            rows: var.rows as u32,
        },
        init: init_of(alloc, var.init),
    })
}
