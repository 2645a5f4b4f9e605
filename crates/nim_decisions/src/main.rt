//! Runs transcripts of the control plane's decisions: where data lies, the commands of one task, templates, patches,
//! and moves of tasks. The words are the names of the files. Prints `ok NAME` for each file, or what differs, and ends
//! with status 1 where something does.
#![tactic(auto)]

mod blocks;
mod edits;
mod forms;
mod lists;
mod movable;
mod moves;
mod patches;
mod plane;
mod scene;
mod versions;

use nim_txtar::all_pass;
use plane::Decisions;
use std::io;
use std::process::ExitCode;

fn main(rt: HostRuntime) -> io::Result<ExitCode> {
    if all_pass::<Decisions, HostRuntime>(&rt)? {
        Ok(ExitCode::SUCCESS)
    } else {
        Ok(ExitCode::FAILURE)
    }
}
