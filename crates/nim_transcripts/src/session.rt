use crate::commands::{object_line, slots_line};
use crate::funcs::{apply_line, counts_line, has_counts_line};
use crate::planning::{Planning, plan_line};
use crate::texts::tokens_line;
use crate::values::{cell_line, fit_line, made_line, text_line};
use crate::ways::Ways;
use crate::working::Working;
use nim_base::Worker;
use nim_lines::{LineFault, Subject, differences_from, parts};
use nim_txtar::{FileFault, Test};
use std::alloc::Global;

/// Transcripts of calls.
pub struct Transcripts;

impl Test for Transcripts {
    fn differences(alloc: Global, file: &str) -> Result<Vec<String>, FileFault> {
        differences_from::<Session>(alloc, file)
    }
}

/// What the lines of a section are about.
#[derive(Drop)]
struct Session {
    working: Working,
    planning: Planning,
    ways: Ways,
}

impl Subject for Session {
    fn begin(alloc: Global) -> Result<Session, LineFault> {
        Ok(Session {
            working: Working::new(alloc, Worker(0)),
            planning: Planning::new(alloc),
            ways: Ways::new(alloc),
        })
    }

    fn answer(&mut self, alloc: Global, line: &str, out: &mut String) -> Result<(), LineFault> {
        let (word, text) = parts(line, " ");
        match word {
            "apply" | "counts" | "has_counts" => task_line(alloc, word, text, out),
            "fit" | "iota" | "filled" | "cell" | "text" => value_line(alloc, word, text, out),
            "tokens" => tokens_line(alloc, text, out),
            "slots" => slots_line(alloc, text, out),
            "object" => object_line(alloc, text, out),
            "patch" | "length" => plan_line(alloc, word, text, out),
            "half" | "edit" | "expand" | "list" | "holds" | "covered" | "rank" => {
                self.planning.answer(alloc, word, text, out)
            }
            "keep" | "ways" => self.ways.answer(alloc, word, text, out),
            _ => self.working.answer(alloc, line, word, text, out),
        }
    }
}

fn task_line(alloc: Global, word: &str, text: &str, out: &mut String) -> Result<(), LineFault> {
    match word {
        "apply" => apply_line(alloc, text, out),
        "counts" => counts_line(alloc, text, out),
        _ => has_counts_line(alloc, text, out),
    }
}

fn value_line(alloc: Global, word: &str, text: &str, out: &mut String) -> Result<(), LineFault> {
    match word {
        "fit" => fit_line(alloc, text, out),
        "iota" => made_line(alloc, text, true, out),
        "filled" => made_line(alloc, text, false, out),
        "cell" => cell_line(alloc, text, out),
        _ => text_line(alloc, text, out),
    }
}
