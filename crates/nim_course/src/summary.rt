ghost use Rattle.std.specs.Prelude.{◌≡◌, IfOk};
ghost use Rattle.nim_course.specs.Summaries as spec;

use nim_base::{Name, NoMemory, Position, Seq, Worker};
use nim_edit::EditRefused;
use nim_message::{ToWorker, order_length};
use nim_reuse::Patched;
use std::alloc::Global;

/// What came of a proposal to move a task of a block to a worker: it was taken, or refused.
#[derive(Debug, Drop)]
pub struct EditLine {
    pub block: Name,
    pub task: u32,
    pub to: u32,
    pub refused: Option<EditRefused>,
}

/// A rollback: the lowest worker that was lost, and the position that the job went back to.
#[derive(Clone, Copy, Debug, PartialEq, Eq)]
pub struct Rollback {
    pub worker: Worker,
    pub position: Position,
}

/// A worker: whether it is live, how many tasks its orders stand for, and how many orders these are.
#[derive(Clone, Copy, Debug, PartialEq, Eq)]
pub struct WorkerLine {
    pub live: bool,
    pub tasks: u64,
    pub orders: u64,
}

/// What a controller counts over all epochs. A count that would pass its type stays at the greatest number of it. The
/// meaning of each is in `specs/Summaries.antt`.
#[derive(Debug, Drop)]
pub struct Summary {
    /// The instances: the first of a block in an epoch was given task by task, its template was installed for the
    /// second, and each later one was asked for of the templates that workers have.
    pub instances: u32,
    pub single: u32,
    pub installed: u32,
    pub cached: u32,
    /// The patches that were made, and how often a kept one was used again.
    pub made: u32,
    pub repeated: u32,
    /// The edits that were taken and refused, and all in order.
    pub taken: u64,
    pub refused: u64,
    pub edits: Seq<EditLine>,
    pub rollbacks: Seq<Rollback>,
    /// The bytes of all orders as frames.
    pub control: u64,
    /// By worker.
    pub workers: Seq<WorkerLine>,
}

impl Summary {
    /// Nothing yet, with so many workers, all of them live.
    pub fn new(alloc: Global, workers: u16) -> Result<Summary, NoMemory>
        ensures { IfOk result (λ summary. summary ≡ spec.new_summary workers) }
    {
        let mut lines = Seq::new(alloc);
        for _ in 0..workers {
            lines.push(WorkerLine {
                live: true,
                tasks: 0,
                orders: 0,
            })?;
        }
        Ok(Summary {
            instances: 0,
            single: 0,
            installed: 0,
            cached: 0,
            made: 0,
            repeated: 0,
            taken: 0,
            refused: 0,
            edits: Seq::new(alloc),
            rollbacks: Seq::new(alloc),
            control: 0,
            workers: lines,
        })
    }

    /// One more instance, which was given task by task.
    pub fn count_single(&mut self)
        ensures { self.new ≡ spec.single_counted self.old }
    {
        self.instances = self.instances.saturating_add(1);
        self.single = self.single.saturating_add(1);
    }

    /// One more instance, which was asked for as a whole: whether its template was installed for it, and the patch
    /// before it.
    pub fn count_reused(&mut self, is_new: bool, patched: Patched)
        ensures { self.new ≡ spec.reused_counted is_new patched self.old }
    {
        self.instances = self.instances.saturating_add(1);
        if is_new {
            self.installed = self.installed.saturating_add(1);
        } else {
            self.cached = self.cached.saturating_add(1);
        }
        match patched {
            Patched::Not => {}
            Patched::Repeated(_) => self.repeated = self.repeated.saturating_add(1),
            Patched::Made(_) => self.made = self.made.saturating_add(1),
        }
    }

    /// One more order to a worker, which stands for so many tasks. Takes no memory.
    pub fn count_order(&mut self, worker: Worker, order: &ToWorker, tasks: u64)
        ensures { self.new ≡ spec.order_counted self.old worker order.now tasks }
    {
        self.control = self.control.saturating_add(order_length(order));
        let place = usize::from(worker.0);
        if let Some(line) = self.workers.as_slice().get(place) {
            let counted = WorkerLine {
                live: line.live,
                tasks: line.tasks.saturating_add(tasks),
                orders: line.orders.saturating_add(1),
            };
            self.workers.set(place, counted);
        }
    }
}
