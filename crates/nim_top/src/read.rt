ghost use Rattle.std.specs.Prelude.{◌≡◌, ◌<◌, ℕ, List, length, string_bytes, IfOk, IsTrue};
ghost use Rattle.nim_job.specs.Whole.{is_whole};
ghost use Rattle.nim_check.specs.declared.fault.ReadFault.TheVariants as read_fault;
ghost use Rattle.nim_check.specs.Faults.{TellsFile};
ghost use Rattle.nim_check.specs.Refusals.{job_refusal};
ghost use Rattle.nim_top.specs.Parts.{TellsInputFault, ReadsPlan, ReadsJob, ReadsSchedule};
ghost use Rattle.nim_top.specs.Texts.{AreOf, IsTextRead, Texts, refusal_line};

use crate::fault::InputFault;
use crate::load::{FileText, Inputs};
use crate::status::{InputFile, Outcome};
use nim_check::{CheckFault, Input, ReadFault, read_driver, read_job};
use nim_job::Job;
use nim_lex::Refusal;
use nim_schedule::{Line, ScheduleFault, read_schedule};
use std::alloc::{AllocError, Global};

/// A file as a whole, in place of a line.
const WHOLE: u32 = 0;

/// The driver has more bytes than are read.
const DRIVER_TOO_LONG: u8 = 1;

/// The data have more bytes than are read.
const DATA_TOO_LONG: u8 = 70;

/// The schedule has more bytes than are read.
const SCHEDULE_TOO_LONG: u8 = 90;

/// A job, and the lines of the schedule by which it is run.
#[derive(Drop)]
pub struct Plan {
    pub job: Job,
    pub schedule: Vec<Line>,
}

/// The job of a driver and its data with the lines of a schedule, or the first refused line of the first of the three
/// files that has one.
pub fn read(alloc: Global, inputs: &Inputs) -> Result<Plan, InputFault>
    ensures reads { (t : Texts) → AreOf inputs.now t → ReadsPlan t result }
    ensures whole { IfOk result (λ plan. IsTrue (is_whole plan.job)) }
{
    let job = job_in(alloc, &inputs.driver, &inputs.data_file)?;
    let schedule = schedule_in(alloc, &inputs.schedule)?;
    Ok(Plan { job, schedule })
}

/// The job of a driver and its data, or why they are refused.
fn job_in(alloc: Global, driver: &FileText, data_file: &FileText) -> Result<Job, ReadFault>
    ensures reads { (text file : List ℕ) → IsTextRead 1048576 driver.now text → IsTextRead 33554432 data_file.now file
        → ReadsJob text file result }
    ensures whole { IfOk result (λ job. IsTrue (is_whole job)) }
{
    match (driver, data_file) {
        (FileText::Whole(driver), FileText::Whole(data_file)) => read_job(alloc, driver, data_file),
        (FileText::Whole(driver), FileText::TooLong) => Err(refused_data(alloc, driver)),
        (FileText::TooLong, _) => Err(too_long(Input::Driver, DRIVER_TOO_LONG)),
    }
}

/// That a driver or its data as a whole are refused by a rule.
fn too_long(input: Input, rule: u8) -> ReadFault
    ensures { result ≡ read_fault.At input (record { line = 0; rule = rule }) }
{
    ReadFault::At {
        input,
        refusal: Refusal { line: WHOLE, rule },
    }
}

/// Why a driver or, where no rule refuses it, its data are refused, which are too long.
fn refused_data(alloc: Global, driver: &[u8]) -> ReadFault
    ensures { (file : List ℕ) → 33554432 < length file → TellsFile (job_refusal driver.now file) result }
{
    match read_driver(alloc, driver) {
        Ok(_job) => too_long(Input::Data, DATA_TOO_LONG),
        Err(CheckFault::At(refusal)) => ReadFault::At {
            input: Input::Driver,
            refusal,
        },
        Err(CheckFault::NoMemory) => ReadFault::NoMemory,
    }
}

/// The lines of a schedule, or why it is refused.
fn schedule_in(alloc: Global, text: &FileText) -> Result<Vec<Line>, ScheduleFault>
    ensures { (bytes : List ℕ) → IsTextRead 16777216 text.now bytes → ReadsSchedule bytes result }
{
    match text {
        FileText::Whole(bytes) => read_schedule(alloc, bytes),
        FileText::TooLong => Err(ScheduleFault::Refused(Refusal {
            line: WHOLE,
            rule: SCHEDULE_TOO_LONG,
        })),
    }
}

/// The outcome of files that are refused.
pub fn refused(alloc: Global, fault: InputFault) -> Outcome
    ensures { TellsInputFault fault result }
{
    match fault {
        InputFault::At { file, refusal } => match refusal_line(alloc, file, refusal) {
            Ok(line) => Outcome::Refused(line),
            Err(_) => Outcome::Memory,
        },
        InputFault::NoMemory => Outcome::Memory,
    }
}

/// The line that tells a refusal.
fn refusal_line(alloc: Global, file: InputFile, refusal: Refusal) -> Result<String, AllocError>
    ensures { IfOk result (λ text. string_bytes text ≡ refusal_line (record { file = file; refusal = refusal })) }
{
    let Refusal { line, rule } = refusal;
    match file {
        InputFile::Driver => format!(in alloc; "nimbus: driver line {line} rule {rule}\n"),
        InputFile::Data => format!(in alloc; "nimbus: data line {line} rule {rule}\n"),
        InputFile::Schedule => format!(in alloc; "nimbus: schedule line {line} rule {rule}\n"),
    }
}
