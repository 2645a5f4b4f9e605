ghost use Rattle.std.specs.Prelude.{◌≡◌, ◌++◌, IfOk, None};
ghost use Rattle.nim_schedule.specs.Fault.{Gives};
ghost use Rattle.nim_schedule.specs.Lines as spec;
ghost use Rattle.nim_schedule.specs.Words.{words_in};

use crate::Line;
use crate::fault::Unread;
use crate::fields::line_as;
use crate::kind::LineKind;
use crate::words::{next_word, uncommented};
use nim_base::NoMemory;
use std::alloc::Global;

/// The line is none of a schedule's.
const NO_LINE: u8 = 91;

/// Puts what a line says behind the others, or answers the rule that refuses it.
#[tactic(auto, unfolding(crate::specs::Lines::line_rule, crate::specs::Lines::lines_in))]
pub fn read_line(alloc: Global, line: &[u8], lines: &mut Vec<Line>) -> Result<Option<u8>, NoMemory>
    ensures rule { IfOk result (λ rule. rule ≡ spec.line_rule line.now) }
    ensures lines { IfOk result (λ rule. rule ≡ None → lines.new.items ≡ lines.old.items ++ spec.lines_in line.now) }
{
    let Some((first, rest)) = next_word(uncommented(line)) else {
        return Ok(None);
    };
    match line_by(alloc, first, rest) {
        Ok(line) => lines.push(line)?,
        Err(Unread::Malformed) => return Ok(Some(NO_LINE)),
        Err(Unread::NoMemory) => return Err(NoMemory),
    }
    Ok(None)
}

/// The line that a first word and those of a text behind it say.
#[tactic(auto, unfolding(crate::specs::Lines::line_by))]
fn line_by(alloc: Global, first: &[u8], rest: &[u8]) -> Result<Line, Unread>
    ensures { Gives (spec.line_by first.now (words_in rest.now)) result }
{
    let Some(kind) = LineKind::of(first) else {
        return Err(Unread::Malformed);
    };
    if kind.is_taken_yet() {
        line_as(alloc, kind, rest)
    } else {
        Err(Unread::Malformed)
    }
}
