//! Runs transcripts: files with calls of the libraries, a line each, and below each what comes of it. The words are the
//! names of the files. Prints `ok NAME` for each file, or what differs, and ends with status 1 where something does.
#![tactic(auto)]

mod commands;
mod draws;
mod edits;
mod entries;
mod funcs;
mod given;
mod halves;
mod orders;
mod planning;
mod plans;
mod session;
mod shapes;
mod texts;
mod values;
mod ways;
mod working;

use nim_txtar::all_pass;
use session::Transcripts;
use std::io;
use std::process::ExitCode;

fn main(rt: HostRuntime) -> io::Result<ExitCode> {
    if all_pass::<Transcripts, HostRuntime>(&rt)? {
        Ok(ExitCode::SUCCESS)
    } else {
        Ok(ExitCode::FAILURE)
    }
}
