ghost use Rattle.std.specs.Prelude.{◌≡◌, IfErr, IfOk, true};
ghost use Rattle.nim_top.specs.Parts.{IsUnloaded, IsUnread};
ghost use Rattle.nim_top.specs.Texts.{AreOf, IsTextRead, OfFile, OfTexts};
ghost use Rattle.nim_top.specs.Words.{is_accepted, setup_of, sums_up, texts_of, word_of};

use crate::status::Outcome;
use crate::verb::Verb;
use crate::words::{WordsFault, given};
use nim_course::Setup;
use nim_io::{Files, LoadFault, read_all};
use std::alloc::Global;

/// The most bytes that a driver may have.
const DRIVER_LIMIT: usize = 1_048_576;

/// The most bytes that a data file may have.
const DATA_LIMIT: usize = 33_554_432;

/// The most bytes that a schedule may have.
const SCHEDULE_LIMIT: usize = 16_777_216;

/// What was read of a file. One that is too long isn't refused before it is its turn.
#[derive(Debug, Drop)]
pub enum FileText {
    Whole(Vec<u8>),
    TooLong,
}

/// How a job is run, whether its summary is told, and what was read of a driver, its data and a schedule.
#[derive(Debug, Drop)]
pub struct Inputs {
    pub setup: Setup,
    pub summary: bool,
    pub driver: FileText,
    pub data_file: FileText,
    pub schedule: FileText,
}

/// Reads the files that the words of this command name: first the driver, then its data, then the schedule. A file that
/// isn't named is empty.
pub fn load<L: Files>(
    alloc: Global,
    verb: Verb,
    words: &[String],
    files: &mut L,
) -> Result<Inputs, Outcome>
    ensures accepted { IfOk result (λ inputs. is_accepted verb (texts_of words.now) ≡ true) }
    ensures setup { IfOk result (λ inputs. inputs.setup ≡ setup_of verb (texts_of words.now)) }
    ensures summary { IfOk result (λ inputs. inputs.summary ≡ sums_up verb (texts_of words.now)) }
    ensures inputs { IfOk result (λ inputs. OfTexts (L.told files.old) verb (texts_of words.now) (AreOf inputs)) }
    ensures quiet { IfOk result (λ inputs. L.faults files.new ≡ L.faults files.old) }
    ensures unloaded { IfErr result (IsUnloaded verb (texts_of words.now) (L.faults files.old) (L.faults files.new)) }
{
    let request = match given(alloc, verb, words) {
        Ok(request) => request,
        Err(WordsFault::Refused) => return Err(Outcome::Words),
        Err(WordsFault::NoMemory) => return Err(Outcome::Memory),
    };
    let driver = load_one(alloc, files, Some(request.driver), DRIVER_LIMIT)?;
    let data_file = load_one(alloc, files, request.data_file, DATA_LIMIT)?;
    let schedule = load_one(alloc, files, request.schedule, SCHEDULE_LIMIT)?;
    Ok(Inputs {
        setup: request.setup,
        summary: request.summary,
        driver,
        data_file,
        schedule,
    })
}

/// Reads one file, of which at most so many bytes are wanted.
fn load_one<L: Files>(
    alloc: Global,
    files: &mut L,
    name: Option<&str>,
    most: usize,
) -> Result<FileText, Outcome>
    ensures text { IfOk result (λ text. OfFile (L.told files.old) (word_of name.entry) (IsTextRead most text)) }
    ensures quiet { IfOk result (λ text. L.faults files.new ≡ L.faults files.old) }
    ensures unread { IfErr result (IsUnread (L.faults files.old) (L.faults files.new)) }
    ensures same { L.told files.new ≡ L.told files.old }
{
    let Some(name) = name else {
        return Ok(FileText::Whole(Vec::new(alloc)));
    };
    match read_all(alloc, files, name, most) {
        Ok(bytes) => Ok(FileText::Whole(bytes)),
        Err(LoadFault::TooLong) => Ok(FileText::TooLong),
        Err(LoadFault::Open | LoadFault::Read) => Err(Outcome::Read),
        Err(LoadFault::NoMemory) => Err(Outcome::Memory),
    }
}
