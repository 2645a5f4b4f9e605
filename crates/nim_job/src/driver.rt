ghost use Rattle.std.specs.List.{list_all};
ghost use Rattle.std.specs.Prelude.{◌≡◌, ◌<◌, ◌≤◌, true, false, None, pos, replicate, IfOk, OnOk, OnErr, IsTrue};
ghost use Rattle.std.specs.Prelude.{if◌then◌else◌};
ghost use Rattle.nim_job.specs.declared.stmt.Stmt.{out-Stmt};
ghost use Rattle.nim_job.specs.Machine as spec;
ghost use Rattle.nim_job.specs.Machine.{after_ask, answered, appended, ask_now, ask_of, asked_now, before_ask};
ghost use Rattle.nim_job.specs.Machine.{is_span, IsWithin, start_machine, takes_cell, takes_text, Wants};
ghost use Rattle.nim_job.specs.Quiet.{is_quiet, quiet_step};
ghost use Rattle.nim_job.specs.Saved.{driver_in, fits, gone_back};
ghost use Rattle.nim_job.specs.Whole.{is_whole};

use crate::arith::{atoms, set};
use crate::copies::copy_stmts;
use crate::path::{close, next_stmt, pass_first, replace, skip_first};
use crate::span::{object_of_part, spans};
use crate::wholeness::scalar_count;
use crate::{Ask, Asked, DriverState, Job, Level, LevelKind, Span, Stmt};
use nim_base::{NoMemory, Seq};
use sqlite_items::Items;
use std::alloc::Global;
use std::marker::Model;

/// The most bytes that a run may print.
const OUTPUT_LIMIT: usize = 16_777_216;

/// The most bodies that a driver is in at once: its own, and 16 inside each other.
const MOST_LEVELS: usize = 17;

/// Takes a driver's statements in order: it asks for the next thing, and is answered. Contracts see it as the
/// record `Machine` of `specs/Machine.antt`.
///
/// It owns a copy of the body, and where it stands is a path of levels in this tree, outermost first: a statement's
/// body
/// is never copied, and there is room for all levels from the start.
#[derive(Debug, Drop)]
pub struct DriverMachine {
    alloc: Global,
    steps: u32,
    body: Items<Stmt>,
    spans: Vec<Span>,
    levels: Vec<Level>,
    scalars: Vec<i64>,
    count: u32,
    output: Vec<u8>,
    asked: Option<Asked>,
    full: bool,
}

impl Model for DriverMachine {
    ghost use Rattle.std.specs.Prelude.{◌≡◌, ◌≤◌, length, true};
    ghost use Rattle.std.specs.List.{list_all};
    ghost use Rattle.std.specs.Vec.{vec_capacity};
    ghost use Rattle.nim_job.specs.Levels.{IsOpen, todo_of};
    ghost use Rattle.nim_job.specs.Machine.{is_span, Machine};
    ghost use Rattle.nim_job.specs.contracts.stmt.Stmt as stmt;
    ghost use Rattle.std.specs.Coded.{codes};

    ghost Value = { Machine };

    ghost coded = { Prim.hlevel (codes, stmt.the_row.coded) };

    ghost view = { λ m. record {
      steps = m.steps;
      body = m.body;
      spans = m.spans.items;
      driver = record {
        todo = todo_of m.body m.levels.items;
        scalars = m.scalars.items;
        count = m.count;
        output = m.output.items;
      };
      asked = m.asked;
      full = m.full;
    } };

    ghost invariant = { λ m. (m.count ≤ m.steps) × (length m.output.items ≤ 16777216)
        × (list_all is_span m.spans.items ≡ true) × IsOpen m.body (vec_capacity m.levels) m.levels.items };
}

impl DriverMachine {
    /// A machine at the start of a job's body.
    pub fn new(alloc: Global, job: &Job) -> Result<DriverMachine, NoMemory>
        requires whole { IsTrue (is_whole job.now) }
        ensures { IfOk result (λ m. m ≡ start_machine job.now) }
    {
        let mut levels = Vec::with_capacity(alloc, MOST_LEVELS)?;
        levels.push_reserved(Level {
            next: 0,
            kind: LevelKind::Driver,
            turns: 0,
        });
        Ok(DriverMachine {
            alloc,
            steps: job.steps,
            body: copy_stmts(alloc, job.body.as_slice())?,
            spans: spans(alloc, job.vars.as_slice())?,
            levels,
            scalars: zeros(alloc, scalar_count(job))?,
            count: 0,
            output: Vec::new(alloc),
            asked: None,
            full: false,
        })
    }

    /// What the driver asks for next, once the statements that ask nothing are taken. It is counted, and is to be
    /// answered before the next ask where it is to be answered at all. Where memory was refused the same ask comes
    /// again: only statements that ask nothing are taken then, which takes no memory.
    pub fn next(&mut self) -> Result<Ask, NoMemory>
        requires answered { self.old.asked ≡ None }
        ensures ask { IfOk result (λ ask. ask ≡ ask_of self.old) }
        ensures asked { IfOk result (λ ask. Wants ask self.new.asked) }
        ensures ok { OnOk result (self.new ≡ after_ask self.old) }
        ensures err { OnErr result (self.new ≡ before_ask self.old) }
    {
        if self.full {
            return Ok(Ask::Limit);
        }
        self.settle();
        self.ask()
    }

    /// Ends an ask but an output. The cell is what `Ask::Get` asked for, and is used by it alone. Takes no memory.
    pub fn answer(&mut self, cell: i64)
        requires asked { IsTrue (takes_cell self.old.asked) }
        ensures { self.new ≡ answered self.old cell }
    {
        if let Some(Asked::Get { scalar }) = self.asked {
            set(self.scalars.as_mut_slice(), scalar, cell);
        }
        self.asked = None;
    }

    /// Ends an output: the text is printed. Where more than 16,777,216 bytes would be printed none is, and each later
    /// ask is `Ask::Limit`.
    pub fn append(&mut self, text: &[u8]) -> Result<(), NoMemory>
        requires asked { IsTrue (takes_text self.old.asked) }
        ensures ok { OnOk result (self.new ≡ appended self.old text.now) }
        ensures err { OnErr result (self.new ≡ self.old) }
    {
        if self.output.len() + text.len() <= OUTPUT_LIMIT {
            self.output.extend_from_slice(text)?;
        } else {
            self.full = true;
        }
        self.asked = None;
        Ok(())
    }

    /// Where the driver stands, to be gone back to. Copies no statement.
    pub fn save(&self) -> Result<DriverState, NoMemory>
        ensures stands { IfOk result (λ state. driver_in self.now.body state ≡ self.now.driver) }
        ensures fits { IfOk result (λ state. IsTrue (fits self.now state)) }
    {
        Ok(DriverState {
            levels: Seq::from_vec(self.levels.as_slice().to_vec(self.alloc)?),
            scalars: Seq::from_vec(self.scalars.as_slice().to_vec(self.alloc)?),
            count: self.count,
            output: Seq::from_vec(self.output.as_slice().to_vec(self.alloc)?),
        })
    }

    /// Goes back to where a driver stood. Nothing is unanswered then.
    pub fn restore(&mut self, state: &DriverState) -> Result<(), NoMemory>
        requires fits { IsTrue (fits self.old state.now) }
        ensures ok { OnOk result (self.new ≡ gone_back self.old state.now) }
        ensures err { OnErr result (self.new ≡ self.old) }
    {
        let scalars = state.scalars.as_slice().to_vec(self.alloc)?;
        let output = state.output.as_slice().to_vec(self.alloc)?;
        replace(
            self.body.as_slice(),
            &mut self.levels,
            state.levels.as_slice(),
        );
        self.scalars = scalars;
        self.count = state.count;
        self.output = output;
        self.asked = None;
        self.full = false;
        Ok(())
    }

    /// What is printed so far.
    pub fn output(&self) -> &[u8]
        ensures output { result.now ≡ self.now.driver.output }
        ensures within { IsWithin self.now }
    {
        self.output.as_slice()
    }

    /// Takes the items in front that ask nothing, as many as may still be counted.
    fn settle(&mut self)
        requires open { self.old.full ≡ false }
        ensures { self.new ≡ before_ask self.old }
    {
        while self.count < self.steps {
            if !self.pass() {
                return;
            }
        }
    }

    /// Takes the first item where it asks nothing, and says whether there was such an item.
    fn pass(&mut self) -> bool
        requires room { self.old.driver.count < self.old.steps }
        ensures quiet { result ≡ is_quiet self.old.driver.todo }
        ensures passed { let next = record self.old { driver = quiet_step self.old.driver } in
            self.new ≡ (if result then next else self.old) }
    {
        let passed = pass_first(
            self.body.as_slice(),
            &mut self.levels,
            self.scalars.as_mut_slice(),
        );
        if passed {
            self.count += 1;
        }
        passed
    }

    /// Asks what the first item asks.
    fn ask(&mut self) -> Result<Ask, NoMemory>
        requires open { self.old.full ≡ false }
        requires answered { self.old.asked ≡ None }
        requires settled { self.old.driver.count < self.old.steps → is_quiet self.old.driver.todo ≡ false }
        ensures ask { IfOk result (λ ask. ask ≡ ask_now self.old) }
        ensures asked { IfOk result (λ ask. Wants ask self.new.asked) }
        ensures ok { OnOk result (self.new ≡ asked_now self.old) }
        ensures err { OnErr result (self.new ≡ self.old) }
    {
        let body = close(self.body.as_slice(), &mut self.levels);
        if self.levels.is_empty() {
            return Ok(Ask::Finished);
        }
        if self.steps <= self.count {
            return Ok(Ask::Limit);
        }
        match next_stmt(self.body.as_slice(), self.levels.as_slice(), body) {
            None => Ok(Ask::Finished), // further turns of a loop, which were taken
            Some(stmt) => {
                let scalars = self.scalars.as_slice();
                let ask = stmt_ask(self.alloc, scalars, self.spans.as_slice(), stmt)?;
                self.asked = stmt_asked(stmt);
                self.count += 1;
                skip_first(self.body.as_slice(), &mut self.levels, body, stmt);
                Ok(ask)
            }
        }
    }
}

/// What a statement asks.
fn stmt_ask(alloc: Global, scalars: &[i64], spans: &[Span], stmt: &Stmt) -> Result<Ask, NoMemory>
    requires spans { list_all is_span spans.now ≡ true }
    ensures { IfOk result (λ ask. ask ≡ spec.stmt_ask scalars.now spans.now (out-Stmt stmt.now)) }
{
    Ok(match stmt {
        Stmt::Do { block, args } => Ask::Run {
            block: *block,
            args: atoms(alloc, scalars, args.as_slice())?,
        },
        Stmt::Get {
            var,
            part,
            row,
            cell,
            ..
        } => Ask::Get {
            object: object_of_part(spans, *var, *part),
            row: *row,
            cell: *cell,
        },
        Stmt::Checkpoint => Ask::Checkpoint,
        Stmt::Output { var } => Ask::Output { var: *var },
        _ => Ask::Finished,
    })
}

/// Which kind of ask a statement makes.
fn stmt_asked(stmt: &Stmt) -> Option<Asked>
    ensures { result ≡ spec.stmt_asked (out-Stmt stmt.now) }
{
    match stmt {
        Stmt::Do { .. } => Some(Asked::Run),
        Stmt::Get { scalar, .. } => Some(Asked::Get { scalar: *scalar }),
        Stmt::Checkpoint => Some(Asked::Checkpoint),
        Stmt::Output { .. } => Some(Asked::Output),
        _ => None,
    }
}

/// So many zeros.
fn zeros(alloc: Global, count: u8) -> Result<Vec<i64>, NoMemory>
    ensures { IfOk result (λ zeros. zeros.items ≡ replicate count (pos 0)) }
{
    let mut zeros = Vec::new(alloc);
    zeros.resize(usize::from(count), 0)?;
    Ok(zeros)
}
