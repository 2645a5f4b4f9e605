ghost use Rattle.std.specs.Prelude.{◌≡◌, ◌++◌, ◌∷◌, ℕ, true, false, [], get_or, map, IfOk, OnOk};
ghost use Rattle.nim_lockstep.specs.Cluster.{Batched, Node as node_state, new_node};
ghost use Rattle.nim_lockstep.specs.Nodes.{batch_begun, frame_sent, frame_taken, frames_from, order_taken};
ghost use Rattle.nim_lockstep.specs.Nodes as nodes;
ghost use Rattle.nim_place.specs.Extends.{worker_of};
ghost use Rattle.nim_worker.specs.Runs.{reads_of_work};
ghost use Rattle.nim_cluster.specs.Stands.{IsNodeIdle, IsNode, queued_frames, ran_at, runs_in};
ghost use Rattle.nim_cluster.specs.Steps.{IsFinished, Took};
ghost use Rattle.nim_cluster.specs.Steps as spec;

use nim_base::{Epoch, NoMemory, Seq, Worker};
use nim_lockstep::Ran;
use nim_message::{Data, FromWorker, ToWorker};
use nim_schedule::Event;
use nim_worker::{Batch, Out, Work, WorkerCore};
use std::alloc::Global;
use std::collections::VecDeque;

/// The most commands of a batch.
const MOST_COMMANDS: u32 = 16;

/// A worker with its links. What it has come to is `IsNode` of `specs/Stands.antt`.
#[derive(Drop)]
pub(crate) struct Node {
    alloc: Global,
    pub(crate) core: WorkerCore,
    /// The batch that is out.
    pub(crate) batch: Option<Batch>,
    /// The orders that it didn't take yet, its reports that the controller didn't take yet, and from each worker the
    /// frames of data that it didn't take yet.
    pub(crate) orders: VecDeque<ToWorker>,
    pub(crate) reports: VecDeque<FromWorker>,
    pub(crate) frames: Vec<VecDeque<Data>>,
    /// Whether any of these frames may wait: while it is false, none does.
    pub(crate) frames_wait: bool,
}

impl Node {
    /// One of so many workers, that nothing happened at.
    pub(crate) fn new(alloc: Global, worker: Worker, workers: u16) -> Result<Node, NoMemory>
        ensures { IfOk result (λ kept. IsNode worker.0 kept (new_node workers)) }
    {
        let frames = no_frames(alloc, workers)?;
        Ok(Node {
            alloc,
            core: WorkerCore::new(alloc, worker),
            batch: None,
            orders: VecDeque::new(alloc),
            reports: VecDeque::new(alloc),
            frames,
            frames_wait: false,
        })
    }

    /// Whether it may take, begin or finish what an event says.
    pub(crate) fn may_take(&self, event: &Event) -> bool
        ensures { (number : ℕ) (node : node_state) → IsNode number self.now node
            → result ≡ spec.may_take event.now node }
    {
        match event {
            Event::Order(_) => !self.orders.is_empty(),
            Event::Report(_) => !self.reports.is_empty(),
            Event::Data { from, .. } => self.has_frame(*from as usize),
            Event::Begin { most, .. } => self.may_begin(*most),
            Event::Finish(_) => self.batch.is_some(),
            Event::Lose(_) | Event::Propose { .. } => false,
        }
    }

    /// Whether a frame of data may wait; where it says no, none does.
    pub(crate) fn has_frames(&self) -> bool
        ensures { (number : ℕ) (node : node_state) → IsNode number self.now node → result ≡ false → IsNodeIdle node }
    {
        self.frames_wait
    }

    pub(crate) fn has_frame(&self, from: usize) -> bool
        ensures { (number : ℕ) (node : node_state) → IsNode number self.now node
            → result ≡ nodes.has_any (frames_from from node) }
    {
        match self.frames.get(from) {
            Some(frames) => !frames.is_empty(),
            None => false,
        }
    }

    pub(crate) fn may_begin(&self, most: u32) -> bool
        ensures { (number : ℕ) (node : node_state) → IsNode number self.now node → result ≡ nodes.may_begin most node }
    {
        1 <= most && most <= MOST_COMMANDS && self.batch.is_none() && self.core.is_ready()
    }

    /// Takes its next order.
    pub(crate) fn take_order(&mut self) -> Result<(), NoMemory>
        ensures { (number : ℕ) (node : node_state) → IsNode number self.old node
            → OnOk result (IsNode number self.new (order_taken node.orders node)) }
    {
        match self.orders.pop_front() {
            Some(order) => self.core.on_message(order),
            None => Ok(()),
        }
    }

    /// Takes the next frame of data from a worker.
    pub(crate) fn take_frame(&mut self, from: usize) -> Result<(), NoMemory>
        ensures { (number : ℕ) (node : node_state) → IsNode number self.old node
            → OnOk result (IsNode number self.new (frame_taken from (frames_from from node) node)) }
    {
        if from >= self.frames.len() {
            return Ok(());
        }
        match self.frames[from].pop_front() {
            Some(frame) => {
                self.frames_wait = any_frames(self.frames.as_slice());
                self.core.on_data(frame)
            }
            None => Ok(()),
        }
    }

    /// Begins a batch of at most so many commands, where it may.
    pub(crate) fn begin(&mut self, most: u32)
        ensures { (number : ℕ) (node : node_state) → IsNode number self.old node → nodes.may_begin most node ≡ true
            → IsNode number self.new (batch_begun (worker_of number) most node) }
    {
        if 1 <= most && most <= MOST_COMMANDS && !self.core.busy() {
            self.batch = Some(self.core.begin(most as u16));
        }
    }

    /// Finishes its batch, and gives what is to be sent; its runs come behind the trace.
    pub(crate) fn finish(&mut self, trace: &mut Vec<Ran>) -> Result<Vec<Out>, NoMemory>
        ensures { (number : ℕ) (node : node_state) (b : Batched) → IsNode number self.old node → node.batch ≡ Some b
            → IfOk result (λ outs. IsFinished number node b self.new outs.items trace.old.items trace.new.items) }
    {
        let Some(batch) = self.batch.take() else {
            return Ok(Vec::new(self.alloc));
        };
        if !self.core.stale() {
            note_runs(self.alloc, self.core.worker(), &batch, trace)?;
        }
        self.core.finish(batch)
    }

    /// Its next report, which waits no longer.
    pub(crate) fn take_report(&mut self) -> Option<FromWorker>
        ensures took { Took self.old.reports.items result self.new.reports.items }
        ensures rest { self.new ≡ record self.old { reports = self.new.reports } }
    {
        self.reports.pop_front()
    }

    /// One more order waits.
    pub(crate) fn put_order(&mut self, order: ToWorker) -> Result<(), NoMemory>
        ensures { (number : ℕ) (node : node_state) → IsNode number self.old node
            → OnOk result (IsNode number self.new (record node { orders = node.orders ++ order ∷ [] })) }
    {
        Ok(self.orders.push_back(order)?)
    }

    /// One more report waits.
    pub(crate) fn put_report(&mut self, report: FromWorker) -> Result<(), NoMemory>
        ensures { (number : ℕ) (node : node_state) → IsNode number self.old node
            → OnOk result (IsNode number self.new (record node { reports = node.reports ++ report ∷ [] })) }
    {
        Ok(self.reports.push_back(report)?)
    }

    /// One more frame of data from a worker waits.
    pub(crate) fn put_frame(&mut self, from: usize, frame: Data) -> Result<(), NoMemory>
        ensures { (number : ℕ) (node : node_state) → IsNode number self.old node
            → OnOk result (IsNode number self.new (frame_sent from frame node)) }
    {
        if from >= self.frames.len() {
            return Ok(());
        }
        self.frames_wait = true;
        Ok(self.frames[from].push_back(frame)?)
    }
}

/// No frames from any of so many workers.
fn no_frames(alloc: Global, workers: u16) -> Result<Vec<VecDeque<Data>>, NoMemory>
    ensures { IfOk result (λ frames. queued_frames frames.items ≡ (new_node workers).frames) }
{
    let mut frames = Vec::new(alloc);
    for _ in 0..workers {
        frames.push(VecDeque::new(alloc))?;
    }
    Ok(frames)
}

/// Where it says no, these queues are empty.
fn any_frames(queues: &[VecDeque<Data>]) -> bool
    ensures { result ≡ false → (from : ℕ) → get_or (queued_frames queues.now) from [] ≡ [] }
{
    for queue in queues {
        if !queue.is_empty() {
            return true;
        }
    }
    false
}

/// The runs of a batch come behind the trace.
fn note_runs(
    alloc: Global,
    worker: Worker,
    batch: &Batch,
    trace: &mut Vec<Ran>,
) -> Result<(), NoMemory>
    ensures { OnOk result (trace.new.items ≡ trace.old.items ++ runs_in worker batch.now) }
{
    for work in batch.as_slice() {
        note_run(alloc, worker, batch.epoch(), work, trace)?;
    }
    Ok(())
}

/// What a work runs, if it runs a task, comes behind the trace.
fn note_run(
    alloc: Global,
    worker: Worker,
    epoch: Epoch,
    work: &Work,
    trace: &mut Vec<Ran>,
) -> Result<(), NoMemory>
    ensures { OnOk result (trace.new.items ≡ trace.old.items ++ map (ran_at worker epoch) (reads_of_work work.now)) }
{
    if let Some(position) = work.run() {
        let reads = Seq::from_vec(Vec::from_slice(alloc, work.reads())?);
        trace.push(Ran {
            worker,
            epoch,
            position,
            reads,
        })?;
    }
    Ok(())
}
