ghost use Rattle.std.specs.Prelude.{◌≡◌, IfOk};
ghost use Rattle.nim_lex.specs.Refusals.{Answers};
ghost use Rattle.nim_schedule.specs.Fault.{told};
ghost use Rattle.nim_schedule.specs.Schedule.{schedule_refusal, schedule_of};

use crate::line::read_line;
use crate::{Line, ScheduleFault};
use nim_lex::{Refusal, line_len};
use std::alloc::Global;

/// The most bytes that a schedule has.
const MOST_BYTES: usize = 16_777_216;

/// The schedule as a whole, in place of a line.
const WHOLE: u32 = 0;

/// The schedule has more than `MOST_BYTES`.
const TOO_LONG: u8 = 90;

/// The lines of a schedule, in order, or the first line that rule 91 refuses; rule 90 comes before all lines. They
/// are defined in `specs/Schedule.antt` over `specs/Lines.antt`. Any bytes are taken. Nothing is kept but what the
/// lines say. Want of memory may come in place of any answer.
pub fn read_schedule(alloc: Global, bytes: &[u8]) -> Result<Vec<Line>, ScheduleFault>
    ensures answers { Answers told (schedule_refusal bytes.now) result }
    ensures lines { IfOk result (λ lines. lines.items ≡ schedule_of bytes.now) }
{
    if bytes.len() > MOST_BYTES {
        return Err(ScheduleFault::Refused(Refusal {
            line: WHOLE,
            rule: TOO_LONG,
        }));
    }
    let mut lines = Vec::new(alloc);
    let mut number = 1;
    let mut at = 0;
    while at < bytes.len() {
        let rest = &bytes[at..];
        let len = line_len(rest);
        if let Some(rule) = read_line(alloc, &rest[..len], &mut lines)? {
            return Err(ScheduleFault::Refused(Refusal { line: number, rule }));
        }
        number += 1;
        at += len + 1;
    }
    Ok(lines)
}
