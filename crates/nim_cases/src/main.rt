//! Runs cases: each is a file that says what a command is given and what it must answer. The words are the names of
//! the files. Prints `ok NAME` for each case, or what differs, and ends with status 1 where something does.
#![tactic(auto)]

mod case;
mod faults;
mod made;
mod run;
mod trace;
mod wanted;

use case::Cases;
use nim_txtar::all_pass;
use std::io;
use std::process::ExitCode;

fn main(rt: HostRuntime) -> io::Result<ExitCode> {
    if all_pass::<Cases, HostRuntime>(&rt)? {
        Ok(ExitCode::SUCCESS)
    } else {
        Ok(ExitCode::FAILURE)
    }
}
