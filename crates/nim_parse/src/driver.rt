ghost use Rattle.std.specs.Prelude.{◌≡◌, ◌<◌, ◌==◌, ◌≤◌, length, IfOk, None, Some, []};
ghost use Rattle.std.specs.List.{prefix_len};
ghost use Rattle.nim_lex.specs.Refusals.{Answers, refused};
ghost use Rattle.nim_lex.specs.Source.{tokens_of};
ghost use Rattle.nim_lex.specs.Source as lex;
ghost use Rattle.nim_parse.specs.Driver.{found_line, next_state, number_of, grammar_refusal, told, tree_of};
ghost use Rattle.nim_parse.specs.Rules.{rule_of};

use crate::Tree;
use crate::cursor::Cursor;
use crate::fault::{ParseFault, Unread};
use crate::form::Found;
use crate::lines::read_line;
use crate::rules::{rule_at_end, rule_of};
use crate::state::State;
use crate::statements::head_of;
use nim_base::NoMemory;
use nim_lex::{Refusal, Token, end_line};
use std::alloc::Global;

/// The tree of a driver, or the first refused line with the smallest rule that refuses it. The
/// lines are defined in `specs/Grammar.antt`, the rules in `specs/Rules.antt`, the tree in
/// `specs/Driver.antt`. Want of memory may come in place of any answer.
pub fn parse(alloc: Global, bytes: &[u8], tokens: &[Token]) -> Result<Tree, ParseFault>
    requires sound { lex.token_refusal bytes.now ≡ None }
    requires tokens { tokens.now ≡ tokens_of bytes.now }
    ensures answers { Answers told (grammar_refusal bytes.now) result }
    ensures tree { IfOk result (λ tree. tree ≡ tree_of bytes.now) }
{
    let mut state = State::new(alloc);
    let mut at = 0;
    while at < tokens.len() {
        let rest = &tokens[at..];
        let len = line_len(rest);
        let line = &rest[..len];
        if let Some(rule) = take_line(alloc, bytes, &mut state, line)? {
            let line = number_of(line);
            return Err(ParseFault::At(Refusal { line, rule }));
        }
        at += len;
    }
    if let Some(rule) = rule_at_end(&state) {
        let line = end_line(bytes);
        return Err(ParseFault::At(Refusal { line, rule }));
    }
    let State { sections, .. } = state;
    Ok(Tree::new(sections))
}

/// How many tokens stand on the first line.
fn line_len(tokens: &[Token]) -> usize
    ensures len { result ≡ prefix_len (λ t. t.line == number_of tokens.now) tokens.now }
    ensures some { 0 < length tokens.now → 0 < result }
    ensures within { result ≤ length tokens.now }
{
    match tokens {
        [first, ..] => tokens.iter().take_while(|t| t.line == first.line).count(),
        [] => 0,
    }
}

fn number_of(line: &[Token]) -> u32
    ensures { result ≡ number_of line.now }
{
    match line {
        [first, ..] => first.line,
        [] => 0,
    }
}

#[tactic(auto, unfolding(crate::specs::Driver::found_line))]
fn find(alloc: Global, source: &[u8], state: &State, line: &[Token]) -> Result<Found, NoMemory>
    ensures { IfOk result (λ line_found. line_found ≡ found_line source.now state.now line.now) }
{
    let mut cursor = Cursor::new(source, line);
    let head = head_of(&cursor);
    let number = number_of(line);
    match read_line(alloc, &mut cursor, state.block.is_some(), number, head) {
        Ok(form) => Ok(Found {
            head,
            form: Some(form),
            fits: cursor.fits(),
        }),
        Err(Unread::Malformed) => Ok(Found {
            head,
            form: None,
            fits: true,
        }),
        Err(Unread::NoMemory) => Err(NoMemory),
    }
}

/// Takes a line in, or answers the smallest rule that refuses it.
fn take_line(
    alloc: Global,
    source: &[u8],
    state: &mut State,
    line: &[Token],
) -> Result<Option<u8>, NoMemory>
    ensures rule { IfOk result (λ rule. rule ≡ rule_of state.old (found_line source.now state.old line.now)) }
    ensures next { IfOk result (λ rule. rule ≡ None → state.new ≡ next_state source.now state.old line.now) }
{
    let found = find(alloc, source, state, line)?;
    if let Some(rule) = rule_of(state, &found) {
        return Ok(Some(rule));
    }
    if let Some(form) = found.form {
        state.add(form)?;
    }
    Ok(None)
}
