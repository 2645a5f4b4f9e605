ghost use Rattle.std.specs.Prelude.{◌≡◌, IfOk};
ghost use Rattle.nim_lex.specs.Refusals.{Answers};
ghost use Rattle.nim_data.specs.Fault.{told};
ghost use Rattle.nim_data.specs.Reading.{GaveValues, ended};
ghost use Rattle.nim_data.specs.Wanted.{data_file_refusal, values_in};

use crate::reading::{NO_ROW, Reading};
use crate::wanted::NOT_NEXT;
use crate::{DataFault, Wanted};
use nim_base::{Seq, Value};
use nim_lex::{Refusal, end_line, line_len};
use std::alloc::Global;

/// The most bytes that a data file has.
const MOST_BYTES: usize = 33_554_432;

/// The file as a whole, in place of a line.
const WHOLE: u32 = 0;

/// The file has more than `MOST_BYTES`.
const TOO_LONG: u8 = 70;

/// The values of the wanted parts, which are to stand in a data file in their order and alone, or the first refused
/// line: the form of all lines comes first. Rules 70 to 72 are defined in `specs/Parts.antt`, 73 to 75 in
/// `specs/Wanted.antt`. Any bytes are taken. Want of memory may come in place of any answer.
pub fn read_data(alloc: Global, bytes: &[u8], wanted: &[Wanted]) -> Result<Seq<Value>, DataFault>
    ensures answers { Answers told (data_file_refusal wanted.now bytes.now) result }
    ensures values { IfOk result (λ values. values ≡ values_in bytes.now) }
{
    if bytes.len() > MOST_BYTES {
        return Err(DataFault::At(Refusal {
            line: WHOLE,
            rule: TOO_LONG,
        }));
    }
    let mut reading = Reading::new(alloc);
    let mut row = Vec::new(alloc);
    let mut number = 1;
    let mut at = 0;
    while at < bytes.len() {
        let rest = &bytes[at..];
        let len = line_len(rest);
        let line = &rest[..len];
        if let Some(rule) = reading.take(alloc, wanted, number, line, &mut row)? {
            return Err(DataFault::At(Refusal { line: number, rule }));
        }
        number += 1;
        at += len + 1;
    }
    ended(reading, wanted, end_line(bytes))
}

/// What the lines give where the file ends behind them.
fn ended(reading: Reading, wanted: &[Wanted], end: u32) -> Result<Seq<Value>, DataFault>
    ensures { GaveValues (ended end wanted.now reading) result }
{
    if reading.lacks() {
        return Err(DataFault::At(Refusal {
            line: end,
            rule: NO_ROW,
        }));
    }
    let mut reading = reading;
    reading.close()?;
    if let Some(refusal) = reading.refused {
        return Err(DataFault::At(refusal));
    }
    if reading.values.len() < wanted.len() {
        return Err(DataFault::At(Refusal {
            line: end,
            rule: NOT_NEXT,
        }));
    }
    Ok(reading.values)
}
