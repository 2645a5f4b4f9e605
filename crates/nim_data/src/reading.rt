//! What is kept of the lines of a data file so far. From the first part that isn't wanted on, only the form counts.

ghost use Rattle.std.specs.Prelude.{◌≡◌, ◌<◌, ◌≤◌, if◌then◌else◌, is_none, length, true, false, IfOk, OnOk, None};
ghost use Rattle.nim_data.specs.Lines.{header, row};
ghost use Rattle.nim_data.specs.Reading as spec;

use crate::fault::Unread;
use crate::lines::{Header, is_bare, read_header, read_row};
use crate::wanted::{Wanted, rule_at};
use nim_base::{NoMemory, Seq, Value};
use nim_lex::Refusal;
use std::alloc::Global;
use std::mem;

/// A header is not of its form.
const NO_HEADER: u8 = 71;

/// A row is not of its form, or missing.
pub const NO_ROW: u8 = 72;

/// The last part so far.
#[derive(Drop)]
pub enum Last {
    /// A wanted one, which is to have so many rows, with those so far.
    Kept { wanted: u32, value: Value },
    /// One that isn't kept, or none: so many rows of this width are still to come.
    Passed { left: u32, width: u32 },
}

/// What the lines so far were.
#[derive(Drop)]
pub struct Reading {
    /// The values before the last part, as long as each part was wanted.
    pub values: Seq<Value>,
    pub last: Last,
    /// The first header of a part that isn't wanted.
    pub refused: Option<Refusal>,
}

impl Last {
    /// A row is still to come.
    fn lacks(&self) -> bool
        ensures { result ≡ spec.lacks self.now }
    {
        match self {
            Last::Kept { wanted, value } => value.rows() < *wanted,
            Last::Passed { left, .. } => *left > 0,
        }
    }

    fn width(&self) -> u32
        ensures { result ≡ spec.last_width self.now }
    {
        match self {
            Last::Kept { value, .. } => value.width(),
            Last::Passed { width, .. } => *width,
        }
    }

    fn push(&mut self, row: &[i64]) -> Result<(), NoMemory>
        requires width { length row.now ≡ spec.last_width self.old }
        requires lacks { spec.lacks self.old ≡ true }
        ensures { OnOk result (self.new ≡ spec.with_row row.now self.old) }
    {
        match self {
            Last::Kept { wanted, value } => {
                // to read it tells the proof that it fits 32 bits, and so do the rows
                let _wanted = *wanted;
                value.push_row(row)
            }
            Last::Passed { left, .. } => {
                *left -= 1;
                Ok(())
            }
        }
    }
}

impl Reading {
    /// Before the first line: no part has begun, and no header was refused.
    pub fn new(alloc: Global) -> Reading
        ensures { result ≡ spec.nothing }
    {
        Reading {
            values: Seq::new(alloc),
            last: Last::Passed { left: 0, width: 1 },
            refused: None,
        }
    }

    /// A row is still to come.
    pub fn lacks(&self) -> bool
        ensures { result ≡ spec.lacks self.now.last }
    {
        self.last.lacks()
    }

    /// Puts the last part, if it is kept, behind the others.
    pub fn close(&mut self) -> Result<(), NoMemory>
        ensures { OnOk result (self.new ≡ spec.part_closed self.old) }
    {
        let last = mem::replace(&mut self.last, Last::Passed { left: 0, width: 1 });
        if let Last::Kept { value, .. } = last {
            self.values.push(value)?;
        }
        Ok(())
    }

    /// Takes a line in, or answers the rule that refuses it. The row is a buffer.
    #[tactic(auto, unfolding(crate::specs::Reading::line_rule, crate::specs::Reading::after_data_line))]
    pub fn take(
        &mut self,
        alloc: Global,
        wanted: &[Wanted],
        number: u32,
        line: &[u8],
        row: &mut Vec<i64>,
    ) -> Result<Option<u8>, NoMemory>
        ensures rule { IfOk result (λ rule. rule ≡ spec.line_rule self.old line.now) }
        ensures next { IfOk result
            (λ rule. rule ≡ None → self.new ≡ spec.after_data_line wanted.now self.old number line.now) }
    {
        if is_bare(line) {
            return Ok(None);
        }
        if self.lacks() {
            self.take_row(line, row)
        } else {
            self.take_header(alloc, wanted, number, line)
        }
    }

    fn take_row(&mut self, line: &[u8], buffer: &mut Vec<i64>) -> Result<Option<u8>, NoMemory>
        requires { spec.lacks self.old.last ≡ true }
        ensures rule { IfOk result (λ rule. rule ≡ spec.row_rule (row (spec.last_width self.old.last) line.now)) }
        ensures next { IfOk result (λ rule. rule ≡ None
            → self.new ≡ spec.after_row self.old (row (spec.last_width self.old.last) line.now)) }
    {
        match read_row(self.last.width(), line, buffer) {
            Ok(()) => {
                self.last.push(buffer.as_slice())?;
                Ok(None)
            }
            Err(Unread::Malformed) => Ok(Some(NO_ROW)),
            Err(Unread::NoMemory) => Err(NoMemory),
        }
    }

    fn take_header(
        &mut self,
        alloc: Global,
        wanted: &[Wanted],
        number: u32,
        line: &[u8],
    ) -> Result<Option<u8>, NoMemory>
        ensures rule { IfOk result (λ rule. rule ≡ spec.header_form_rule (header line.now)) }
        ensures next { IfOk result (λ rule. rule ≡ None
            → self.new ≡ spec.after_header wanted.now self.old number (header line.now)) }
    {
        match read_header(alloc, line) {
            Ok(header) => {
                self.close()?;
                self.begin(alloc, wanted, number, &header);
                Ok(None)
            }
            Err(Unread::Malformed) => Ok(Some(NO_HEADER)),
            Err(Unread::NoMemory) => Err(NoMemory),
        }
    }

    /// A part begins behind those that are closed.
    fn begin(&mut self, alloc: Global, wanted: &[Wanted], number: u32, header: &Header)
        requires { 1 ≤ header.now.width }
        ensures { self.new ≡ spec.with_part_begun wanted.now self.old number header.now }
    {
        if self.refused.is_some() {
            self.pass(header);
        } else if let Some(rule) = rule_at(wanted.get(self.values.len()), header) {
            self.values = Seq::new(alloc);
            self.refused = Some(Refusal { line: number, rule });
            self.pass(header);
        } else {
            self.last = Last::Kept {
                wanted: header.rows,
                value: Value::new(alloc, header.width),
            };
        }
    }

    fn pass(&mut self, header: &Header)
        ensures { self.new ≡ record self.old { last = spec.part_passed header.now } }
    {
        self.last = Last::Passed {
            left: header.rows,
            width: header.width,
        };
    }
}
