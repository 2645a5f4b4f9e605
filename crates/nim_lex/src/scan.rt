ghost use Rattle.std.specs.Prelude.{◌≡◌, IfOk, length, All};
ghost use Rattle.nim_lex.specs.Refusals.{Answers, told};
ghost use Rattle.nim_lex.specs.Source.{tokens_of, token_refusal};
ghost use Rattle.nim_lex.specs.Texts.{HasItsText, InOrder};

use crate::line::read_line;
use crate::{LexFault, Refusal, Token, line_len};
use std::alloc::Global;

/// The most bytes that a driver has.
const MOST_BYTES: usize = 1_048_576;

/// The driver as a whole, in place of a line.
const WHOLE: u32 = 0;

/// The driver has more than `MOST_BYTES`.
const TOO_LONG: u8 = 1;

/// The tokens of a driver, in order, or the first refused line with the smallest rule that it
/// breaks. The tokens are defined in `specs/Source.antt` over `specs/Pieces.antt`, the rules in
/// `specs/Rules.antt`. Any bytes are taken. Want of memory may come in place of any answer.
pub fn tokens(alloc: Global, bytes: &[u8]) -> Result<Vec<Token>, LexFault>
    ensures answers { Answers told (token_refusal bytes.now) result }
    ensures tokens { IfOk result (λ all. all.items ≡ tokens_of bytes.now) }
    ensures texts { IfOk result (λ all. All (HasItsText bytes.now) all.items) }
    ensures order { IfOk result (λ all. InOrder 0 (length bytes.now) all.items) }
{
    if bytes.len() > MOST_BYTES {
        return Err(LexFault::At(Refusal {
            line: WHOLE,
            rule: TOO_LONG,
        }));
    }
    let mut all = Vec::new(alloc);
    let mut number = 1;
    let mut at = 0;
    while at < bytes.len() {
        let rest = &bytes[at..];
        let len = line_len(rest);
        if let Some(rule) = read_line(number, at as u32, &rest[..len], &mut all)? {
            return Err(LexFault::At(Refusal { line: number, rule }));
        }
        number += 1;
        at += len + 1;
    }
    Ok(all)
}
