ghost use Rattle.nim_top.specs.Answer.{EndsAndTells, Ends, WritesText, outside_with};
ghost use Rattle.nim_top.specs.Words.{texts_of};
ghost use Rattle.nim_top.specs.declared.verb.Verb.TheVariants as verb;

use crate::Status;
use crate::load::load;
use crate::read::{read, refused};
use crate::status::Outcome;
use crate::tell::{print, tell};
use crate::verb::Verb;
use nim_io::{Files, Sink};
use std::alloc::Global;

/// The command `check DRIVER`, with `--data FILE` if need be: reads the driver and the data, and writes `accepted` to
/// `out` where no rule refuses them, else the refusal to `err`. How it may end is `Ends` of `specs/Answer.antt`.
pub fn top_check<L: Files, K: Sink>(
    alloc: Global,
    words: &[String],
    files: &mut L,
    out: &mut K,
    err: &mut K,
) -> Status
    ensures { EndsAndTells verb.Check (texts_of words.now)
        (outside_with (L.told files.old) (L.faults files.old) (K.written out.old) (K.faults out.old))
        (outside_with (L.told files.new) (L.faults files.new) (K.written out.new) (K.faults out.new))
        (WritesText (K.written err.old) (K.written err.new) (K.faults err.old) (K.faults err.new)) result.0 }
{
    let outcome = check(alloc, words, files, out);
    tell(outcome.text().as_bytes(), err);
    outcome.status()
}

/// All but what is told on standard error.
fn check<L: Files, K: Sink>(alloc: Global, words: &[String], files: &mut L, out: &mut K) -> Outcome
    ensures { Ends verb.Check (texts_of words.now)
        (outside_with (L.told files.old) (L.faults files.old) (K.written out.old) (K.faults out.old))
        (outside_with (L.told files.new) (L.faults files.new) (K.written out.new) (K.faults out.new)) result }
{
    let inputs = match load(alloc, Verb::Check, words, files) {
        Ok(inputs) => inputs,
        Err(outcome) => return outcome,
    };
    match read(alloc, &inputs) {
        Ok(_plan) => print(b"accepted\n", out),
        Err(fault) => refused(alloc, fault),
    }
}
