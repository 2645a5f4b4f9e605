//! The statements, each looked at with what is in scope.

ghost use Rattle.std.specs.Prelude.{◌≡◌, ◌≤◌, length, nat_lt, IfOk, None};
ghost use Rattle.std.specs.List.{list_all, list_any};
ghost use Rattle.nim_check.specs.Made.{block_names, var_names};
ghost use Rattle.nim_check.specs.Names.{is_in, reserved};
ghost use Rattle.nim_check.specs.Faults.{told};
ghost use Rattle.nim_check.specs.Refusals.{first_refusal};
ghost use Rattle.nim_lex.specs.Refusals.{Answers};
ghost use Rattle.nim_check.specs.Rules.{condition_reads, has_block, has_variable, is_known, opens, read_by, rule_of, set_by, value_reads};
ghost use Rattle.nim_check.specs.DriverPlaces.{at_statement, empty_scope, places_of_statements, scope_of, scope_with, with_scalar};

use crate::CheckFault;
use crate::names::{block_place, is_in, is_reserved, is_var};
use crate::scope::Scope;
use crate::stages::{are_known, is_known};
use nim_base::Seq;
use nim_lex::Refusal;
use nim_parse::{Block, Condition, Expression, Line, Sections, Statement, Var};
use std::alloc::Global;

/// A scalar has a reserved name.
const RESERVED: u8 = 41;

/// There are too many scalars.
const TOO_MANY: u8 = 44;

/// There is no variable with this name.
const NO_VARIABLE: u8 = 47;

/// There is no block with this name and so many arguments.
const NO_BLOCK: u8 = 52;

/// A scalar that is read isn't set before.
const NOT_SET: u8 = 53;

/// Too many loops, whiles and ifs are open.
const TOO_DEEP: u8 = 54;

/// The scalars that the statements set, in order, or the first line that a rule refuses.
pub fn scalars_of(alloc: Global, sections: &Sections) -> Result<Seq<Seq<u8>>, CheckFault>
    ensures answers { Answers told
        (first_refusal (places_of_statements sections.now empty_scope sections.now.statements)) result }
    ensures scalars { IfOk result (λ scalars. scalars ≡ (scope_of empty_scope sections.now.statements).scalars) }
    ensures few { IfOk result (λ scalars. length scalars ≤ 64) }
{
    let mut scope = Scope::new(alloc);
    for (at, line) in sections.statements.as_slice().iter().enumerate() {
        if let Some(rule) = statement_rule(sections, &scope, line) {
            return Err(CheckFault::At(Refusal {
                line: line.line,
                rule,
            }));
        }
        scope.take(&line.statement)?;
    }
    let Scope { scalars, .. } = scope;
    Ok(scalars)
}

fn sets_reserved(statement: &Statement) -> bool
    ensures { result ≡ list_any (is_in reserved) (set_by statement.now) }
{
    match statement {
        Statement::Let { name, .. } => is_reserved(name.as_slice()),
        Statement::Get { name, .. } => is_reserved(name.as_slice()),
        _ => false,
    }
}

/// Whether there are more than 64 scalars with this one.
fn is_one_too_many(scalars: &[Seq<u8>], name: &[u8]) -> bool
    ensures { result ≡ nat_lt 64 (length (with_scalar scalars.now name.now)) }
{
    if is_in(scalars, name) {
        scalars.len() > 64
    } else {
        scalars.len() >= 64
    }
}

/// Whether there are more than 64 scalars behind a statement.
fn sets_too_many(scope: &Scope, statement: &Statement) -> bool
    ensures { result ≡ nat_lt 64 (length (scope_with scope.now statement.now).scalars) }
{
    match statement {
        Statement::Let { name, .. } => is_one_too_many(scope.scalars.as_slice(), name.as_slice()),
        Statement::Get { name, .. } => is_one_too_many(scope.scalars.as_slice(), name.as_slice()),
        _ => scope.scalars.len() > 64,
    }
}

/// Whether the variable that a statement names is there.
fn has_variable(vars: &[Var], statement: &Statement) -> bool
    ensures { result ≡ has_variable (var_names vars.now) statement.now }
{
    match statement {
        Statement::Get { variable, .. } => is_var(vars, variable.as_slice()),
        Statement::Output { variable } => is_var(vars, variable.as_slice()),
        _ => true,
    }
}

/// Whether the block that a statement names is there, and takes so many arguments.
fn has_block(blocks: &[Block], statement: &Statement) -> bool
    ensures { result ≡ has_block blocks.now statement.now }
{
    match statement {
        Statement::Do { block, arguments } => {
            match blocks.get(block_place(blocks, block.as_slice())) {
                Some(found) => arguments.len() == found.arguments.len(),
                None => false,
            }
        }
        _ => true,
    }
}

fn is_set_value(scalars: &[Seq<u8>], value: &Expression) -> bool
    ensures { result ≡ list_all (is_known scalars.now) (value_reads value.now) }
{
    match value {
        Expression::Alone(atom) => is_known(scalars, atom),
        Expression::Two { left, right, .. } => is_known(scalars, left) && is_known(scalars, right),
    }
}

fn is_set_condition(scalars: &[Seq<u8>], condition: &Condition) -> bool
    ensures { result ≡ list_all (is_known scalars.now) (condition_reads condition.now) }
{
    match condition {
        Condition::NotZero(atom) => is_known(scalars, atom),
        Condition::Holds { left, right, .. } => is_known(scalars, left) && is_known(scalars, right),
    }
}

/// Whether each scalar that a statement reads is one of these.
fn reads_set(scalars: &[Seq<u8>], statement: &Statement) -> bool
    ensures { result ≡ list_all (is_known scalars.now) (read_by statement.now) }
{
    match statement {
        Statement::Do { arguments, .. } => are_known(scalars, arguments.as_slice()),
        Statement::Let { value, .. } => is_set_value(scalars, value),
        Statement::Loop { turns } => is_known(scalars, turns),
        Statement::While { condition } => is_set_condition(scalars, condition),
        Statement::If { condition } => is_set_condition(scalars, condition),
        _ => true,
    }
}

fn opens(statement: &Statement) -> bool
    ensures { result ≡ opens statement.now }
{
    matches!(
        statement,
        Statement::Loop { .. } | Statement::While { .. } | Statement::If { .. }
    )
}

/// The smallest rule that refuses a line.
#[tactic(auto, unfolding(crate::specs::Rules::rule_of))]
fn statement_rule(sections: &Sections, scope: &Scope, line: &Line) -> Option<u8>
    ensures rule { result ≡ rule_of (at_statement sections.now scope.now line.now) }
    ensures few { result ≡ None → length (scope_with scope.now line.now.statement).scalars ≤ 64 }
{
    let statement = &line.statement;
    if sets_reserved(statement) {
        Some(RESERVED)
    } else if sets_too_many(scope, statement) {
        Some(TOO_MANY)
    } else if !has_variable(sections.vars.as_slice(), statement) {
        Some(NO_VARIABLE)
    } else if !has_block(sections.blocks.as_slice(), statement) {
        Some(NO_BLOCK)
    } else if !reads_set(scope.scalars.as_slice(), statement) {
        Some(NOT_SET)
    } else if opens(statement) && scope.depth >= 16 {
        Some(TOO_DEEP)
    } else {
        None
    }
}
