use crate::commands::commands;
use crate::halves::{edit_line, expand_line, half, patch_line};
use crate::orders::length_line;
use crate::plans::{holds_line, rank_line};
use nim_command::{Command, Half, Rank};
use nim_lines::{LineFault, push_answer};
use nim_plan::covered;
use std::alloc::Global;

/// A list of commands, a half, and the last rank that was asked.
#[derive(Drop)]
pub struct Planning {
    list: Vec<Command>,
    half: Half,
    rank: Option<Rank>,
}

impl Planning {
    /// No command, no entry and no rank.
    pub fn new(alloc: Global) -> Planning {
        Planning {
            list: Vec::new(alloc),
            half: Half::empty(alloc),
            rank: None,
        }
    }

    /// `half`, `edit`, `expand`, `list`, `holds`, `covered`, or `rank`.
    pub fn answer(
        &mut self,
        alloc: Global,
        word: &str,
        text: &str,
        out: &mut String,
    ) -> Result<(), LineFault> {
        match word {
            "half" => self.take_half(alloc, text),
            "edit" => edit_line(alloc, &mut self.half, text, out),
            "expand" => expand_line(alloc, &self.half, text, out),
            "list" => self.take_list(alloc, text),
            "holds" => holds_line(alloc, self.list.as_slice(), text, out),
            "covered" => push_answer(out, covered(alloc, self.list.as_slice())?),
            _ => self.rank(alloc, text, out),
        }
    }

    fn take_half(&mut self, alloc: Global, text: &str) -> Result<(), LineFault> {
        self.half = half(alloc, text)?;
        Ok(())
    }

    fn take_list(&mut self, alloc: Global, text: &str) -> Result<(), LineFault> {
        self.list = commands(alloc, text)?;
        Ok(())
    }

    fn rank(&mut self, alloc: Global, text: &str, out: &mut String) -> Result<(), LineFault> {
        self.rank = Some(rank_line(alloc, self.rank, text, out)?);
        Ok(())
    }
}

/// `patch` or `length`, of which nothing stays.
pub fn plan_line(alloc: Global, word: &str, text: &str, out: &mut String) -> Result<(), LineFault> {
    match word {
        "patch" => patch_line(alloc, text, out),
        _ => length_line(alloc, text, out),
    }
}
