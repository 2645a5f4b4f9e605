//! The program: it hands the words of the command line to the top calls, and ends with their status.
#![tactic(auto)]

use nim_cluster::let_go;
use nim_io::{HostFiles, HostSink, write_all};
use nim_top::{Status, top_check, top_replay};
use std::alloc::Global;
use std::process::ExitCode;
use std::rt::Env;
use std::{env, io};

fn main(rt: HostRuntime) -> ExitCode {
    let mut err = HostSink::err(rt.stderr());
    let status = match words(&rt) {
        Ok(words) => {
            let mut files = HostFiles::new(rt);
            let mut out = HostSink::out(rt.stdout());
            let words = words.as_slice();
            if is_check(words) {
                top_check(rt.alloc(), words, &mut files, &mut out, &mut err)
            } else {
                let mut kept = None;
                let status = top_replay(
                    rt.alloc(),
                    words,
                    &mut files,
                    &mut out,
                    &mut err,
                    &mut kept,
                );
                let_go(kept);
                status
            }
        }
        Err(status) => {
            let _ = write_all(&mut err, status.text().as_bytes());
            status
        }
    };
    ExitCode::from(status.0)
}

/// Whether the command is `check`. Any other words, also none, are for `replay` to take or to refuse.
fn is_check(words: &[String]) -> bool {
    words
        .first()
        .is_some_and(|command| command.as_str() == "check")
}

/// The words behind the program's name. One that isn't text makes the command line a faulty one.
fn words<R: Env + Alloc<A = Global>>(rt: &R) -> Result<Vec<String>, Status> {
    match env::args(rt) {
        Ok(args) => args.skip(1).collect(rt.alloc()).or(Err(Status::MEMORY)),
        Err(e) if e.kind() == io::ErrorKind::OutOfMemory => Err(Status::MEMORY),
        Err(_) => Err(Status::WORDS),
    }
}
