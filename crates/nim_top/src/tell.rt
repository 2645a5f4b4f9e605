ghost use Rattle.nim_top.specs.Answer.{WritesText};
ghost use Rattle.nim_top.specs.Parts.{PrintsBytes};

use crate::status::Outcome;
use nim_io::{Sink, write_all};

/// Writes what a command prints.
pub fn print<K: Sink>(output: &[u8], out: &mut K) -> Outcome
    ensures { PrintsBytes output.now (K.written out.old) (K.written out.new) (K.faults out.old)
        (K.faults out.new) result }
{
    match write_all(out, output) {
        Ok(()) => Outcome::Done,
        Err(_) => Outcome::Write,
    }
}

/// Tells this text, or the front of it where a fault comes.
pub fn tell<K: Sink>(text: &[u8], err: &mut K)
    ensures { WritesText (K.written err.old) (K.written err.new) (K.faults err.old) (K.faults err.new) text.now }
{
    let _ = write_all(err, text);
}
