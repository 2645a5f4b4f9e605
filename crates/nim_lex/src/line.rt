ghost use Rattle.std.specs.Prelude.{◌≡◌, ◌++◌, ◌+◌, ◌^◌, ◌<◌, length, IfOk, None, Some};
ghost use Rattle.nim_lex.specs.Rules.{broken_by, smaller};
ghost use Rattle.nim_lex.specs.Source.{line_at, line_tokens, pieces_of};

use crate::front::front;
use crate::{Token, is_blank};
use nim_base::NoMemory;

/// Puts the tokens of a line behind the others, and answers the smallest rule that the line breaks.
pub fn read_line(
    number: u32,
    start: u32,
    line: &[u8],
    tokens: &mut Vec<Token>,
) -> Result<Option<u8>, NoMemory>
    requires { start + length line.now < 2 ^ 32 }
    ensures rule { IfOk result (λ rule. rule ≡ broken_by (pieces_of (line_at number start line.now))) }
    ensures tokens { IfOk result (λ rule. rule ≡ None →
        tokens.new.items ≡ tokens.old.items ++ line_tokens (line_at number start line.now)) }
{
    let mut broken = None;
    let mut at = 0;
    while at < line.len() && line[at] != b'#' {
        if is_blank(line[at]) {
            at += 1;
        } else {
            let found = front(&line[at..]);
            match found.kind {
                Ok(kind) => tokens.push(Token {
                    line: number,
                    at: start + at as u32,
                    len: found.len as u32,
                    kind,
                })?,
                Err(rule) => broken = smaller(broken, rule),
            }
            at += found.len;
        }
    }
    Ok(broken)
}

/// The smaller of two broken rules, where there are two.
fn smaller(first: Option<u8>, rule: u8) -> Option<u8>
    ensures { result ≡ smaller first (Some rule) }
{
    match first {
        None => Some(rule),
        Some(other) => Some(other.min(rule)),
    }
}
