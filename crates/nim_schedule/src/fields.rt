//! The words of a line behind the first, as `specs/Lines.antt` says them.

ghost use Rattle.std.specs.Prelude.{◌≡◌};
ghost use Rattle.nim_schedule.specs.Fault.{Gives};
ghost use Rattle.nim_schedule.specs.Lines as spec;
ghost use Rattle.nim_schedule.specs.Words.{words_in};

use crate::fault::Unread;
use crate::kind::LineKind;
use crate::words::{block_word, next_word, small_number};
use crate::{Event, Line};
use std::alloc::Global;

/// The most commands of a batch.
const MOST_COMMANDS: u32 = 16;

/// Reads what stands behind the first word of a line of some kind.
#[tactic(auto, unfolding(crate::specs::Lines::line_as))]
pub fn line_as(alloc: Global, kind: LineKind, text: &[u8]) -> Result<Line, Unread>
    ensures { Gives (spec.line_as kind (words_in text.now)) result }
{
    match kind {
        LineKind::Order => Ok(Line::One(Event::Order(one_number(text)?))),
        LineKind::Report => Ok(Line::One(Event::Report(one_number(text)?))),
        LineKind::Data => {
            let (from, to) = two_numbers(text)?;
            Ok(Line::One(Event::Data { from, to }))
        }
        LineKind::Begin => {
            let (worker, most) = two_numbers(text)?;
            begin_line(worker, most)
        }
        LineKind::Finish => Ok(Line::One(Event::Finish(one_number(text)?))),
        LineKind::Lose => Ok(Line::One(Event::Lose(one_number(text)?))),
        LineKind::Propose => proposal(alloc, text),
        LineKind::Auto => Ok(Line::Auto(one_number(text)?)),
    }
}

/// One number, and nothing behind it.
#[tactic(auto, unfolding(crate::specs::Lines::one_number))]
fn one_number(text: &[u8]) -> Result<u32, Unread>
    ensures { Gives (spec.one_number (words_in text.now)) result }
{
    let Some((first, rest)) = next_word(text) else {
        return Err(Unread::Malformed);
    };
    match next_word(rest) {
        None => small_number(first),
        Some(_) => Err(Unread::Malformed),
    }
}

/// Two numbers, and nothing behind them.
#[tactic(auto, unfolding(crate::specs::Lines::two_numbers))]
fn two_numbers(text: &[u8]) -> Result<(u32, u32), Unread>
    ensures { Gives (spec.two_numbers (words_in text.now)) result }
{
    let Some((first, rest)) = next_word(text) else {
        return Err(Unread::Malformed);
    };
    Ok((small_number(first)?, one_number(rest)?))
}

/// What `begin W N` says.
fn begin_line(worker: u32, most: u32) -> Result<Line, Unread>
    ensures { Gives (spec.begin_line worker most) result }
{
    if 1 <= most && most <= MOST_COMMANDS {
        Ok(Line::One(Event::Begin { worker, most }))
    } else {
        Err(Unread::Malformed)
    }
}

/// What `propose BLOCK TASK WORKER` says.
#[tactic(auto, unfolding(crate::specs::Lines::proposal))]
fn proposal(alloc: Global, text: &[u8]) -> Result<Line, Unread>
    ensures { Gives (spec.proposal (words_in text.now)) result }
{
    let Some((first, rest)) = next_word(text) else {
        return Err(Unread::Malformed);
    };
    let (task, to) = two_numbers(rest)?;
    let block = block_word(alloc, first)?;
    Ok(Line::One(Event::Propose { block, task, to }))
}
