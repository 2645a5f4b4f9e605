ghost use Rattle.std.specs.Prelude.{◌≡◌, OnOk, IfOk};
ghost use Rattle.nim_parse.specs.States.{with_form, first, with_block_end, with_stage, with_statement};

use crate::form::Form;
use crate::nest::Nest;
use crate::{Block, Line, Sections, Stage};
use nim_base::{NoMemory, Seq};
use std::alloc::Global;

/// How far a driver was read.
#[derive(Clone, Copy)]
pub enum Phase {
    /// No line with tokens yet.
    Start,
    /// The header alone.
    Header,
    /// A `steps` line or a variable, and no block or statement.
    Vars,
    /// A block, and no statement.
    Blocks,
    Statements,
}

/// What the lines so far were.
#[derive(Drop)]
pub struct State {
    pub phase: Phase,
    /// The loops, whiles and ifs that stand open.
    pub opened: Nest,
    /// The block that stands open.
    pub block: Option<Block>,
    pub sections: Sections,
}

impl State {
    /// Before the first line.
    pub fn new(alloc: Global) -> State
        ensures { result ≡ first }
    {
        State {
            phase: Phase::Start,
            opened: Nest::new(alloc),
            block: None,
            sections: Sections {
                steps: None,
                vars: Seq::new(alloc),
                blocks: Seq::new(alloc),
                statements: Seq::new(alloc),
            },
        }
    }

    fn add_stage(&mut self, stage: Stage) -> Result<(), NoMemory>
        ensures { OnOk result (self.new ≡ with_stage stage self.old) }
    {
        if let Some(block) = &mut self.block {
            block.stages.push(stage)?;
        }
        Ok(())
    }

    fn end_block(&mut self) -> Result<(), NoMemory>
        ensures { OnOk result (self.new ≡ with_block_end self.old) }
    {
        self.phase = Phase::Blocks;
        if let Some(block) = self.block.take() {
            self.sections.blocks.push(block)?;
        }
        Ok(())
    }

    fn add_statement(&mut self, line: Line) -> Result<(), NoMemory>
        ensures { OnOk result (self.new ≡ with_statement line self.old) }
    {
        self.phase = Phase::Statements;
        self.opened.take(&line.statement)?;
        self.sections.statements.push(line)?;
        Ok(())
    }

    /// Takes a line in.
    pub fn add(&mut self, form: Form) -> Result<(), NoMemory>
        ensures { OnOk result (self.new ≡ with_form self.old form) }
    {
        match form {
            Form::Header => {
                self.phase = Phase::Header;
                Ok(())
            }
            Form::Steps(steps) => {
                self.phase = Phase::Vars;
                self.sections.steps = Some(steps);
                Ok(())
            }
            Form::Var(var) => {
                self.phase = Phase::Vars;
                self.sections.vars.push(var)
            }
            Form::Block(block) => {
                self.phase = Phase::Blocks;
                self.block = Some(block);
                Ok(())
            }
            Form::Stage(stage) => self.add_stage(stage),
            Form::BlockEnd => self.end_block(),
            Form::Statement(line) => self.add_statement(line),
        }
    }
}
