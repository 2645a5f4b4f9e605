//! The rules of the grammar, as `specs/Rules.antt` lists them.

ghost use Rattle.std.specs.Prelude.{◌≡◌};
ghost use Rattle.nim_parse.specs.Nesting.{may_stand};
ghost use Rattle.nim_parse.specs.Rules as spec;

use crate::Statement;
use crate::form::{Form, Found, Head};
use crate::nest::{Nest, Open};
use crate::state::{Phase, State};

/// The first line with tokens isn't `nimbus 1`, or there is none.
const NO_HEADER: u8 = 10;

/// A `steps` line isn't of its form, or not the second line with tokens.
const BAD_STEPS: u8 = 11;

/// A `var` line isn't of its form, or stands after a `block` line or a statement.
const BAD_VAR: u8 = 12;

/// A `block` line isn't of its form, or stands after a statement.
const BAD_BLOCK: u8 = 13;

/// A line inside a block is neither a stage nor `end` alone.
const NO_STAGE: u8 = 14;

/// A line outside blocks is none of the grammar's.
const NO_LINE: u8 = 15;

/// The file ends inside a block, loop, while or if.
const OPEN_END: u8 = 16;

/// An `int` is out of the range of 64 bits with a sign.
const BIG_INT: u8 = 19;

/// The smallest rule that refuses a line, after the lines that made the state.
#[tactic(auto, unfolding(crate::specs::Rules::rule_of))]
pub fn rule_of(state: &State, line: &Found) -> Option<u8>
    ensures { result ≡ spec.rule_of state.now line.now }
{
    if breaks_header(state, line) {
        Some(NO_HEADER)
    } else if breaks_steps(state, line) {
        Some(BAD_STEPS)
    } else if breaks_vars(state, line) {
        Some(BAD_VAR)
    } else if breaks_blocks(state, line) {
        Some(BAD_BLOCK)
    } else if breaks_stages(state, line) {
        Some(NO_STAGE)
    } else if breaks_statements(state, line) {
        Some(NO_LINE)
    } else if !line.fits {
        Some(BIG_INT)
    } else {
        None
    }
}

/// The rule that refuses the end of the file.
#[tactic(auto, unfolding(crate::specs::Rules::rule_at_end))]
pub fn rule_at_end(state: &State) -> Option<u8>
    ensures { result ≡ spec.rule_at_end state.now }
{
    if matches!(state.phase, Phase::Start) {
        Some(NO_HEADER)
    } else if state.block.is_some() || !state.opened.is_empty() {
        Some(OPEN_END)
    } else {
        None
    }
}

fn may_stand(opened: &Nest, statement: &Statement) -> bool
    ensures { result ≡ may_stand opened.now statement.now }
{
    match statement {
        Statement::End => !opened.is_empty(),
        Statement::Else => matches!(opened.innermost(), Some(Open::If)),
        _ => true,
    }
}

fn is_outside(state: &State, form: &Option<Form>) -> bool
    ensures { result ≡ spec.is_outside state.now form.now }
{
    match form {
        None | Some(Form::Stage(_) | Form::BlockEnd) => false,
        Some(Form::Header) => matches!(state.phase, Phase::Start),
        Some(Form::Statement(line)) => may_stand(&state.opened, &line.statement),
        Some(Form::Steps(_) | Form::Var(_) | Form::Block(_)) => true,
    }
}

fn is_of_block(form: &Option<Form>) -> bool
    ensures { result ≡ spec.is_of_block form.now }
{
    matches!(form, Some(Form::Stage(_) | Form::BlockEnd))
}

fn breaks_header(state: &State, line: &Found) -> bool
    ensures { result ≡ spec.rule_10 state.now line.now }
{
    matches!(state.phase, Phase::Start) && !matches!(line.form, Some(Form::Header))
}

fn breaks_steps(state: &State, line: &Found) -> bool
    ensures { result ≡ spec.rule_11 state.now line.now }
{
    matches!(line.head, Head::Steps)
        && (line.form.is_none() || !matches!(state.phase, Phase::Header))
}

fn breaks_vars(state: &State, line: &Found) -> bool
    ensures { result ≡ spec.rule_12 state.now line.now }
{
    matches!(line.head, Head::Var)
        && (line.form.is_none() || matches!(state.phase, Phase::Blocks | Phase::Statements))
}

fn breaks_blocks(state: &State, line: &Found) -> bool
    ensures { result ≡ spec.rule_13 state.now line.now }
{
    matches!(line.head, Head::Block)
        && (line.form.is_none() || matches!(state.phase, Phase::Statements))
}

fn breaks_stages(state: &State, line: &Found) -> bool
    ensures { result ≡ spec.rule_14 state.now line.now }
{
    state.block.is_some() && !is_of_block(&line.form)
}

fn breaks_statements(state: &State, line: &Found) -> bool
    ensures { result ≡ spec.rule_15 state.now line.now }
{
    state.block.is_none() && !is_outside(state, &line.form)
}
