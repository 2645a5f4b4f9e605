ghost use Rattle.std.specs.Prelude.{◌≡◌, ◌==◌, ◌∷◌, ◌++◌, [], not, Some, OnOk};
ghost use Rattle.std.specs.List.{filter};
ghost use Rattle.nim_course.specs.Controller.{is_in_flight};
ghost use Rattle.nim_course.specs.Reports as reports;

use nim_base::{Instance, NoMemory, Position, Seq, Worker};
use std::alloc::Global;
use std::marker::Model;

/// An instance in flight: which of its tasks are still to be reported, and by whom; or, where it was asked for as a
/// whole, which workers are still to report that they are through. Contracts see it as the record `Flight` of
/// nim_course's `specs/Controller.antt`.
#[derive(Drop)]
pub(crate) struct InFlight {
    instance: Instance,
    base: Position,
    runs: Vec<Option<Worker>>,
    /// How many are still to be reported.
    left: usize,
    through: Vec<Worker>,
}

impl Model for InFlight {
    ghost use Rattle.std.specs.Prelude.{◌≡◌};
    ghost use Rattle.std.specs.List.{count_by};
    ghost use Rattle.std.specs.Option.{is_some};
    ghost use Rattle.nim_course.specs.Controller.{Flight};

    ghost Value = { Flight };

    ghost view = { λ f. record {
      instance = f.instance;
      base = f.base;
      runs = f.runs.items;
      through = f.through.items;
    } };

    ghost invariant = { λ f. f.left ≡ count_by is_some f.runs.items };
}

impl InFlight {
    /// An instance without tasks, the first of which is to be at this position; takes no memory.
    pub(crate) fn new(alloc: Global, instance: Instance, base: Position) -> InFlight
        ensures { result ≡ record { instance = instance; base = base; runs = []; through = [] } }
    {
        InFlight {
            instance,
            base,
            runs: Vec::new(alloc),
            left: 0,
            through: Vec::new(alloc),
        }
    }

    /// An instance that was asked for as a whole, whose task 0 is at this position; these workers are to report that
    /// they are through. Takes no memory.
    pub(crate) fn whole(
        alloc: Global,
        instance: Instance,
        base: Position,
        awaited: Seq<Worker>,
    ) -> InFlight
        ensures { result ≡ record { instance = instance; base = base; runs = []; through = awaited } }
    {
        InFlight {
            instance,
            base,
            runs: Vec::new(alloc),
            left: 0,
            through: awaited.into_vec(),
        }
    }

    /// One more task, which this worker is to report.
    pub(crate) fn push(&mut self, owner: Worker) -> Result<(), NoMemory>
        ensures { OnOk result (self.new ≡ record self.old { runs = self.old.runs ++ Some owner ∷ [] }) }
    {
        self.runs.push(Some(owner))?;
        self.left += 1;
        Ok(())
    }

    /// Its number.
    pub(crate) fn instance(&self) -> Instance
        ensures { result ≡ self.now.instance }
    {
        self.instance
    }

    /// Whether a report of it is awaited.
    pub(crate) fn is_open(&self) -> bool
        ensures { result ≡ is_in_flight self.now }
    {
        self.left > 0 || !self.through.is_empty()
    }

    /// A worker reports the run of the task at a position.
    pub(crate) fn on_ran(&mut self, from: Worker, position: Position)
        ensures { self.new ≡ reports.after_ran from position self.old }
    {
        if position >= self.base {
            let place = (position - self.base) as usize;
            if place < self.runs.len() && is_of(from, self.runs[place]) {
                self.runs[place] = None;
                self.left -= 1;
            }
        }
    }

    /// A worker reports that it is through with an instance.
    pub(crate) fn on_through(&mut self, from: Worker, instance: Instance)
        ensures { self.new ≡ reports.after_through from instance self.old }
    {
        if self.instance == instance {
            drop_worker(&mut self.through, from);
        }
    }
}

/// Whether a run is awaited of a worker.
fn is_of(from: Worker, run: Option<Worker>) -> bool
    ensures { result ≡ reports.is_of from run }
{
    match run {
        Some(worker) => worker.0 == from.0,
        None => false,
    }
}

/// Takes a worker out of others, which stay in order.
fn drop_worker(workers: &mut Vec<Worker>, from: Worker)
    ensures { workers.new.items ≡ filter (λ worker. not (worker.0 == from.0)) workers.old.items }
{
    workers.retain(|worker| worker.0 != from.0);
}
