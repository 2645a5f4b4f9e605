ghost use Rattle.std.specs.Prelude.{◌≡◌, ◌+◌, ◌≤◌, ◌++◌, [], false, true, length, slice_get, IfOk, IsOk, IsTrue, OnErr, OnOk};
ghost use Rattle.std.specs.List.{list_any, position_or_len};
ghost use Rattle.std.specs.Option.{option_map_or};
ghost use Rattle.nim_job.specs.Machine.{ask_of};
ghost use Rattle.nim_job.specs.Objects.{parts_of};
ghost use Rattle.nim_job.specs.Whole.{is_whole};
ghost use Rattle.nim_place.specs.Extends.{is_live};
ghost use Rattle.nim_course.specs.Controller.{new_controller};
ghost use Rattle.nim_course.specs.Moves.{IsMoved, IsTurned, asked, after_pending, fetching, is_held_up, is_open, moved};
ghost use Rattle.nim_course.specs.Moves.{objects_in, orders_asked, orders_of, orders_with};
ghost use Rattle.nim_course.specs.OrdersGiven.{fetch_orders};
ghost use Rattle.nim_course.specs.Summaries.{counted_on};
ghost use Rattle.nim_course.specs.Reports.{after_report, reported};
ghost use Rattle.nim_course.specs.Waits.{waiting_of};
ghost use Rattle.nim_course.specs.Waits as waits;
ghost use Rattle.nim_control.specs.Checkpoints.{IsCheckpointAt};
ghost use Rattle.nim_control.specs.Form.{IsBlock, IsInForm};
ghost use Rattle.nim_control.specs.Given.{objects_from};
ghost use Rattle.nim_control.specs.Keeps.{HasFailed, Keeps};

use crate::begin::{push_firsts, push_resets};
use crate::block::give_block;
use crate::blocks::{all_forms, forms_of, objects};
use crate::checkpoint::{Checkpoint, first_checkpoint};
use crate::counted::count_orders;
use crate::fetch::fetch_objects;
use crate::flight::InFlight;
use crate::sites::SiteMap;
use crate::told::{
    cell_told, first_open, is_any_open, push_open, tell_at, tell_ran, tell_through, texts,
};
use nim_base::{Epoch, Instance, NoMemory, Position, Seq, TaskForm, Worker};
use nim_course::{Fetched, Outcome, Pending, Setup, Summary, Waiting};
use nim_job::{Ask, DriverMachine, Job, first_object};
use nim_message::{FromWorker, ToWorker};
use nim_reuse::{DecisionMap, InstanceAt};
use std::alloc::Global;
use std::marker::Model;

/// So many instances may be in flight.
const MOST_IN_FLIGHT: usize = 4;

/// The controller of a job: it is handed reports and gives orders, and has no transport and no worker inside. Contracts
/// see it as the record `Controller` of nim_course's `specs/Controller.antt`; what holds of each is `IsInForm` of
/// `specs/Form.antt`.
#[derive(Drop)]
pub struct ControllerCore {
    alloc: Global,
    job: Job,
    /// The tasks of each block, their arguments not yet put in: a `do` makes none of them anew.
    forms: Vec<Seq<TaskForm>>,
    sites: SiteMap,
    decisions: DecisionMap,
    machine: DriverMachine,
    epoch: Epoch,
    /// How many tasks were given.
    position: Position,
    /// How many instances and tickets were given in this epoch.
    instance: Instance,
    ticket: u32,
    pending: Pending,
    /// The ticket of the first that was fetched, and what was fetched last.
    first: u32,
    fetched: Vec<Fetched>,
    /// The instances in flight, oldest first: at most four.
    flight: Vec<InFlight>,
    due: bool,
    outcome: Option<Outcome>,
    summary: Summary,
    checkpoint: Checkpoint,
}

impl Model for ControllerCore {
    ghost use Rattle.std.specs.Prelude.{◌≡◌};
    ghost use Rattle.std.specs.Coded.{codes};
    ghost use Rattle.nim_job.specs.contracts.stmt.Stmt as stmt;
    ghost use Rattle.nim_course.specs.Controller.{Controller};
    ghost use Rattle.nim_control.specs.Checkpoints.{IsCheckpointAt};
    ghost use Rattle.nim_control.specs.Form.{IsInForm, forms_in};

    ghost Value = { Controller };

    ghost coded = { Prim.hlevel (codes, stmt.the_row.coded) };

    ghost use Rattle.nim_control.specs.Seen.{seen};

    ghost view = { seen };

    ghost invariant = { λ c. ((c.forms.items ≡ forms_in c.job) × IsCheckpointAt c.job 0 c.checkpoint)
        × IsInForm (seen c) };
}

impl ControllerCore {
    /// A controller at the start of a job: all workers are live, and nothing was given.
    pub fn new(alloc: Global, job: Job, setup: Setup) -> Result<ControllerCore, NoMemory>
        requires whole { IsTrue (is_whole job) }
        requires some { 1 ≤ setup.workers }
        requires few { setup.workers ≤ 16 }
        ensures { IfOk result (λ core. core ≡ new_controller job setup) }
    {
        let forms = all_forms(alloc, &job)?;
        let sites = SiteMap::new(alloc, setup, objects(job.vars.as_slice()))?;
        let decisions = DecisionMap::new(alloc, job.blocks.len())?;
        let machine = DriverMachine::new(alloc, &job)?;
        let summary = Summary::new(alloc, setup.workers)?;
        let checkpoint = first_checkpoint(alloc, &job, &machine)?;
        Ok(ControllerCore {
            alloc,
            job,
            forms,
            sites,
            decisions,
            machine,
            epoch: 0,
            position: 0,
            instance: 0,
            ticket: 0,
            pending: Pending::Begin,
            first: 0,
            fetched: Vec::new(alloc),
            flight: Vec::new(alloc),
            due: true,
            outcome: None,
            summary,
            checkpoint,
        })
    }

    /// Goes as far as it can, and gives the orders, each with the worker that it is for. Where memory is refused that
    /// is
    /// the outcome. A controller that is held up, as it is by any outcome, gives no orders and takes no memory.
    pub fn turn(&mut self) -> Result<Vec<(Worker, ToWorker)>, NoMemory>
        ensures turned { IfOk result (λ orders. IsTurned self.old orders.items self.new) }
        ensures failed { OnErr result (HasFailed self.old self.new) }
        ensures held_up { IsTrue (is_held_up self.old) → IsOk result }
        ensures nothing { IsTrue (is_held_up self.old) → IfOk result (λ orders. orders.items ≡ []) }
    {
        match self.moves() {
            Ok(orders) => {
                self.due = false;
                Ok(orders)
            }
            Err(refused) => {
                self.outcome = Some(Outcome::NoMemory);
                Err(refused)
            }
        }
    }

    /// A worker reports something, whatever it is. Takes no memory.
    pub fn on_report(&mut self, from: Worker, report: FromWorker)
        ensures { self.new ≡ after_report self.old from report }
    {
        self.due = true;
        if self.sites.is_live(from) {
            self.take_report(from, report);
        }
    }

    /// How the job ended, once it has.
    pub fn outcome(&self) -> Option<Outcome>
        ensures { result ≡ self.now.outcome }
    {
        self.outcome
    }

    /// What it waits for.
    pub fn waiting(&self) -> Waiting
        ensures { result ≡ waiting_of self.now }
    {
        if self.due || self.outcome.is_some() {
            return Waiting::Turn;
        }
        match self.pending {
            Pending::Begin | Pending::Idle => Waiting::Turn,
            Pending::Block { .. } => Waiting::Room {
                instance: self.oldest(),
            },
            Pending::Cell { .. } | Pending::Parts { .. } => Waiting::Value {
                ticket: self.next_ticket(),
            },
            Pending::Ended => Waiting::End {
                instance: self.oldest(),
            },
        }
    }

    /// What the driver printed so far.
    pub fn output(&self) -> &[u8]
        ensures { result.now ≡ self.now.machine.driver.output }
    {
        self.machine.output()
    }

    /// What it counted so far.
    pub fn summary(&self) -> &Summary
        ensures { result.now ≡ self.now.summary }
    {
        &self.summary
    }

    /// The last state that the job may go back to: so far its start, since no checkpoint is committed yet.
    pub fn checkpoint(&self) -> &Checkpoint
        ensures { IsCheckpointAt self.now.job 0 result.now }
    {
        &self.checkpoint
    }

    /// Whether a worker is live.
    pub fn is_live(&self, worker: Worker) -> bool
        ensures { result ≡ is_live self.now.live worker }
    {
        self.sites.is_live(worker)
    }

    /// How many workers there are.
    pub fn workers(&self) -> u16
        ensures workers { result ≡ length self.now.live }
        ensures form { IsInForm self.now }
    {
        self.sites.workers()
    }

    /// Moves until it is held up, and gives the orders.
    fn moves(&mut self) -> Result<Vec<(Worker, ToWorker)>, NoMemory>
        ensures moved { IfOk result (λ orders. IsMoved self.old orders.items self.new) }
        ensures held_up { OnOk result (is_held_up self.new ≡ true) }
        ensures keeps { Keeps self.old self.new }
        ensures free { OnErr result (is_held_up self.old ≡ false) }
        ensures nothing { is_held_up self.old ≡ true → IfOk result (λ orders. orders.items ≡ []) }
    {
        let mut orders = Vec::new(self.alloc);
        while !self.is_held_up() {
            self.advance(&mut orders)?;
        }
        Ok(orders)
    }

    /// Whether it may do nothing more now.
    fn is_held_up(&self) -> bool
        ensures { result ≡ is_held_up self.now }
    {
        if self.outcome.is_some() {
            return true;
        }
        match self.pending {
            Pending::Begin | Pending::Idle => false,
            Pending::Block { .. } => self.flight.len() >= MOST_IN_FLIGHT,
            Pending::Cell { .. } | Pending::Parts { .. } => is_any_open(self.fetched.as_slice()),
            Pending::Ended => !self.flight.is_empty(),
        }
    }

    /// One move, its orders counted.
    fn advance(&mut self, orders: &mut Vec<(Worker, ToWorker)>) -> Result<(), NoMemory>
        requires { is_held_up self.old ≡ false }
        ensures orders { OnOk result (orders.new.items ≡ orders.old.items ++ orders_of self.old) }
        ensures moved { OnOk result (self.new ≡ moved self.old) }
        ensures keeps { Keeps self.old self.new }
    {
        let before = orders.len();
        self.do_pending(orders)?;
        let (_, given) = orders.as_slice().split_at(before);
        count_orders(&mut self.summary, &self.decisions, given);
        Ok(())
    }

    /// Does what is pending.
    fn do_pending(&mut self, orders: &mut Vec<(Worker, ToWorker)>) -> Result<(), NoMemory>
        requires { is_held_up self.old ≡ false }
        ensures orders { OnOk result (orders.new.items ≡ orders.old.items ++ orders_of self.old) }
        ensures least { OnOk result (length orders.old.items ≤ length orders.new.items) }
        ensures done { OnOk result (self.new ≡ after_pending self.old self.old.pending) }
        ensures keeps { Keeps self.old self.new }
    {
        match self.pending {
            Pending::Begin => self.begin(orders),
            Pending::Idle => self.ask(orders),
            Pending::Block { .. } => self.give(orders),
            Pending::Cell { row, cell } => {
                self.tell_cell(row, cell);
                Ok(())
            }
            Pending::Parts { var } => self.print(var),
            Pending::Ended => {
                self.outcome = Some(Outcome::Done);
                Ok(())
            }
        }
    }

    /// Begins the epoch.
    fn begin(&mut self, orders: &mut Vec<(Worker, ToWorker)>) -> Result<(), NoMemory>
        requires { self.old.pending ≡ Pending.Begin }
        ensures orders { OnOk result (orders.new.items ≡ orders.old.items ++ orders_with self.old Pending.Begin) }
        ensures begun { OnOk result (self.new ≡ after_pending self.old Pending.Begin) }
        ensures keeps { Keeps self.old self.new }
    {
        push_resets(self.alloc, orders, &self.sites, self.epoch, &self.job)?;
        push_firsts(
            self.alloc,
            orders,
            &mut self.sites,
            self.epoch,
            self.job.vars.as_slice(),
        )?;
        self.pending = Pending::Idle;
        Ok(())
    }

    /// Asks the driver, and fetches what it asks for.
    fn ask(&mut self, orders: &mut Vec<(Worker, ToWorker)>) -> Result<(), NoMemory>
        requires { self.old.pending ≡ Pending.Idle }
        ensures orders { OnOk result (orders.new.items
            ≡ orders.old.items ++ orders_asked self.old (ask_of self.old.machine)) }
        ensures asked { OnOk result (self.new ≡ asked self.old (ask_of self.old.machine)) }
        ensures keeps { Keeps self.old self.new }
    {
        match self.machine.next()? {
            Ask::Run { block, args } => self.pending = Pending::Block { block, args },
            Ask::Get { object, row, cell } => {
                self.pending = Pending::Cell { row, cell };
                self.fetch(object.0, 1, orders)?;
            }
            Ask::Checkpoint => self.machine.answer(0),
            Ask::Output { var } => {
                self.pending = Pending::Parts { var };
                let (first, parts) = self.parts(var);
                self.fetch(first, parts, orders)?;
            }
            Ask::Finished => self.pending = Pending::Ended,
            Ask::Limit => self.outcome = Some(Outcome::Limit),
        }
        Ok(())
    }

    /// Fetches so many objects from one on, all of which are awaited then.
    fn fetch(
        &mut self,
        first: u16,
        count: u32,
        orders: &mut Vec<(Worker, ToWorker)>,
    ) -> Result<(), NoMemory>
        requires within { first + count ≤ 65536 }
        requires few { count ≤ 64 }
        ensures orders { OnOk result (orders.new.items
            ≡ orders.old.items ++ fetch_orders self.old (objects_from first count)) }
        ensures fetched { OnOk result (self.new ≡ fetching self.old (objects_from first count) self.old.pending) }
        ensures keeps { Keeps self.old self.new }
    {
        self.fetched = fetch_objects(
            self.alloc,
            orders,
            &self.sites,
            self.epoch,
            self.ticket,
            first,
            count,
        )?;
        self.first = self.ticket;
        self.ticket = self.ticket.saturating_add(count);
        Ok(())
    }

    /// The object that is part 0 of a variable, and how many parts it has; none where it isn't there.
    fn parts(&self, var: u8) -> (u16, u32)
        ensures parts { result.1 ≡ parts_of self.now.job.vars var }
        ensures objects { objects_from result.0 result.1 ≡ objects_in self.now var }
        ensures few { result.1 ≤ 64 }
        ensures within { result.0 + result.1 ≤ 512 }
    {
        let vars = self.job.vars.as_slice();
        match vars.get(usize::from(var)) {
            Some(found) => (first_object(vars, var), found.parts),
            None => (0, 0),
        }
    }

    /// Gives the instance that waits for room.
    fn give(&mut self, orders: &mut Vec<(Worker, ToWorker)>) -> Result<(), NoMemory>
        ensures orders { IsBlock self.old.pending →
            OnOk result (orders.new.items ≡ orders.old.items ++ orders_of self.old) }
        ensures given { IsBlock self.old.pending → OnOk result (self.new ≡ after_pending self.old self.old.pending) }
        ensures keeps { Keeps self.old self.new }
    {
        if let Pending::Block { block, args } = &self.pending {
            let forms = forms_of(self.forms.as_slice(), *block);
            let flight = give_block(
                self.alloc,
                orders,
                &mut self.sites,
                &mut self.decisions,
                &mut self.summary,
                InstanceAt {
                    epoch: self.epoch,
                    instance: self.instance,
                    block: *block,
                    base: self.position,
                },
                forms,
                args.as_slice(),
            )?;
            push_open(&mut self.flight, flight)?;
            self.position = self.position.saturating_add(forms.len() as u64);
            self.instance = self.instance.saturating_add(1);
            self.machine.answer(0);
            self.pending = Pending::Idle;
        }
        Ok(())
    }

    /// Answers the driver by a cell of what was fetched.
    fn tell_cell(&mut self, row: u64, cell: u64)
        requires { self.old.pending ≡ Pending.Cell row cell }
        ensures { self.new ≡ after_pending self.old (Pending.Cell row cell) }
    {
        let told = cell_told(self.fetched.as_slice(), row, cell);
        self.machine.answer(told);
        self.pending = Pending::Idle;
        self.fetched.clear();
    }

    /// Has the driver print the parts of a variable that were fetched.
    fn print(&mut self, var: u8) -> Result<(), NoMemory>
        requires pending { self.old.pending ≡ Pending.Parts var }
        requires told { list_any is_open self.old.fetched ≡ false }
        ensures printed { OnOk result (self.new ≡ after_pending self.old (Pending.Parts var)) }
        ensures keeps { Keeps self.old self.new }
    {
        let text = texts(self.alloc, self.name(var), self.fetched.as_slice())?;
        self.machine.append(text.as_slice())?;
        self.pending = Pending::Idle;
        self.fetched.clear();
        Ok(())
    }

    /// The name of a variable; none where it isn't there.
    fn name(&self, var: u8) -> &str
        ensures { result.now ≡ option_map_or (λ v. v.name) (slice_get self.now.job.vars var) [] }
    {
        match self.job.vars.as_slice().get(usize::from(var)) {
            Some(found) => found.name.as_str(),
            None => "",
        }
    }

    /// A live worker reports something.
    fn take_report(&mut self, from: Worker, report: FromWorker)
        ensures { self.new ≡ reported self.old from report }
    {
        match report {
            FromWorker::Value {
                epoch,
                ticket,
                object,
                version,
                value,
            } => {
                if epoch == self.epoch && ticket >= self.first {
                    let place = (ticket - self.first) as usize;
                    tell_at(&mut self.fetched, place, object, version, value);
                }
            }
            FromWorker::Ran {
                epoch,
                position,
                ..
            } => {
                if epoch == self.epoch {
                    tell_ran(&mut self.flight, from, position);
                }
            }
            FromWorker::Through { epoch, instance } => {
                if epoch == self.epoch {
                    tell_through(&mut self.flight, from, instance);
                }
            }
            FromWorker::NoMemory => self.outcome = Some(Outcome::NoMemory),
            FromWorker::PeerDown { .. } => {}
        }
    }

    /// The number of the oldest instance in flight, 0 where there is none.
    fn oldest(&self) -> Instance
        ensures { result ≡ waits.oldest self.now.flight }
    {
        match self.flight.first() {
            Some(flight) => flight.instance(),
            None => 0,
        }
    }

    /// The smallest ticket that is open.
    fn next_ticket(&self) -> u32
        ensures { result ≡ counted_on self.now.first (position_or_len is_open self.now.fetched) }
    {
        let open = first_open(self.fetched.as_slice());
        self.first.saturating_add(open as u32)
    }
}
