ghost use Rattle.std.specs.Prelude.{◌≡◌, ◌≤◌, ◌+◌, ℕ, true, false, length, map, Some, IfOk, IsTrue, OnOk};
ghost use Rattle.std.specs.List.{find, flat_map, range_with_len};
ghost use Rattle.nim_job.specs.Whole.{is_whole};
ghost use Rattle.nim_schedule.specs.declared.event.Event.TheVariants as event_is;
ghost use Rattle.nim_lockstep.specs.Cluster.{ClusterState, Node as node_state, has_ended};
ghost use Rattle.nim_lockstep.specs.Events.{is_enabled};
ghost use Rattle.nim_lockstep.specs.InStep.{IsReached};
ghost use Rattle.nim_lockstep.specs.Schedules.{AreLines, FollowsSchedule, IsAuto, IsLine, IsOne, IsRunBy, frames_of, next_of};
ghost use Rattle.nim_cluster.specs.Runs.{IsAdvance, IsRest, ended_as, event_of};
ghost use Rattle.nim_cluster.specs.Stands.{IsNode, StandsInStep, ClusterStands};
ghost use Rattle.nim_cluster.specs.Steps.{AreNodesIdle, may_take};

use crate::Cluster;
use crate::keep::keep_on_ok;
use crate::node::Node;
use nim_base::NoMemory;
use nim_course::{Outcome, Setup};
use nim_job::Job;
use nim_lockstep::{clusters_stay_in_step, events_go_on};
use nim_schedule::{Event, Line};
use std::alloc::Global;

/// How a run ended.
#[derive(Clone, Copy, Debug, PartialEq, Eq)]
pub enum RunOutcome {
    /// The job is done.
    Done,
    /// The job passes its limits.
    Limit,
    /// No worker is live.
    NoWorker,
    /// No event is enabled, and the job isn't done.
    Stalled,
}

/// The end of a run, and the cluster there.
#[derive(Drop)]
pub struct RunEnd {
    pub outcome: RunOutcome,
    pub cluster: Cluster,
}

/// Events by the default rule that name one worker.
#[derive(Clone, Copy)]
enum Moving {
    Report,
    Finish,
    Order,
    Begin,
}

/// Runs a job: gives a new cluster the events of a schedule, and then events by the default rule until none is enabled.
/// Want of memory at a worker is the answer too.
pub fn run(alloc: Global, job: Job, setup: Setup, schedule: &[Line]) -> Result<RunEnd, NoMemory>
    requires whole { IsTrue (is_whole job) }
    requires some { 1 ≤ setup.workers }
    requires few { setup.workers ≤ 16 }
    ensures run { IfOk result
        (λ end. (s : ClusterState) × (IsRunBy job setup schedule.now s × (StandsInStep end.cluster s
        × (ended_as s.control.outcome ≡ Some end.outcome)))) }
{
    clusters_stay_in_step();
    events_go_on();
    let mut cluster = Cluster::new(alloc, job, setup)?;
    let ended = cluster.run_by(schedule);
    let (cluster, outcome) = keep_on_ok(cluster, ended)?;
    Ok(RunEnd { outcome, cluster })
}

impl Cluster {
    /// The next event by the default rule: of all that are enabled the first by kind, and of its kind the first by the
    /// workers' numbers.
    pub fn next_event(&self) -> Option<Event>
        ensures { (s : ClusterState) → ClusterStands self.now s → result ≡ next_of s }
    {
        if let Some(event) = self.first_of(Moving::Report) {
            return Some(event);
        }
        if let Some(event) = self.first_of(Moving::Finish) {
            return Some(event);
        }
        if let Some(event) = self.first_of(Moving::Order) {
            return Some(event);
        }
        if let Some(event) = self.first_frame() {
            return Some(event);
        }
        self.first_of(Moving::Begin)
    }

    /// Is given the events of a schedule and those behind them, and tells how it ended.
    fn run_by(&mut self, schedule: &[Line]) -> Result<RunOutcome, NoMemory>
        ensures { (s : ClusterState) → ClusterStands self.old s → IfOk result (λ outcome. (t : ClusterState)
            × (FollowsSchedule schedule.now s t
            × (ClusterStands self.new t × (ended_as t.control.outcome ≡ Some outcome)))) }
    {
        self.follow(schedule)?;
        self.go_on()?;
        self.end()
    }

    /// The first worker's event of a kind that is enabled.
    fn first_of(&self, kind: Moving) -> Option<Event>
        ensures { (s : ClusterState) → ClusterStands self.now s
            → result ≡ find (is_enabled s) (map (event_of kind) (range_with_len 0 s.setup.workers)) }
    {
        for worker in 0..u32::from(self.setup.workers) {
            if self.may_move(kind, worker) {
                return Some(kind.event(worker));
            }
        }
        None
    }

    /// The first frame of data that may be taken. Mostly none waits, and then no pair of workers is asked.
    fn first_frame(&self) -> Option<Event>
        ensures { (s : ClusterState) → ClusterStands self.now s
            → result ≡ find (is_enabled s) (flat_map (frames_of s.setup.workers) (range_with_len 0 s.setup.workers)) }
    {
        if !self.has_frames() {
            return None;
        }
        self.first_waiting_frame()
    }

    /// Where it says no, no frame of data waits.
    fn has_frames(&self) -> bool
        ensures { (s : ClusterState) → ClusterStands self.now s → result ≡ false
            → AreNodesIdle (length s.nodes) s.nodes }
    {
        for node in self.nodes.as_slice() {
            if node.has_frames() {
                return true;
            }
        }
        false
    }

    fn first_waiting_frame(&self) -> Option<Event>
        ensures { (s : ClusterState) → ClusterStands self.now s
            → result ≡ find (is_enabled s) (flat_map (frames_of s.setup.workers) (range_with_len 0 s.setup.workers)) }
    {
        for from in 0..u32::from(self.setup.workers) {
            if let Some(event) = self.first_frame_from(from) {
                return Some(event);
            }
        }
        None
    }

    fn first_frame_from(&self, from: u32) -> Option<Event>
        ensures { (s : ClusterState) → ClusterStands self.now s
            → result ≡ find (is_enabled s) (frames_of s.setup.workers from) }
    {
        for to in 0..u32::from(self.setup.workers) {
            if self.may_pass(from, to) {
                return Some(Event::Data { from, to });
            }
        }
        None
    }

    /// Whether such an event is enabled. A walk asks this of each worker, so no event is made for it.
    fn may_move(&self, kind: Moving, worker: u32) -> bool
        ensures { (s : ClusterState) → ClusterStands self.now s → result ≡ is_enabled s (event_of kind worker) }
    {
        match self.nodes.get(worker as usize) {
            Some(node) => kind.is_open(node) && self.goes_on(node.core.worker()),
            None => false,
        }
    }

    /// The same of a frame of data.
    fn may_pass(&self, from: u32, to: u32) -> bool
        ensures { (s : ClusterState) → ClusterStands self.now s → result ≡ is_enabled s (event_is.Data from to) }
    {
        match self.nodes.get(to as usize) {
            Some(node) => node.has_frame(from as usize) && self.goes_on(node.core.worker()),
            None => false,
        }
    }

    /// Is given the events of a schedule.
    fn follow(&mut self, schedule: &[Line]) -> Result<(), NoMemory>
        ensures { (s : ClusterState) → ClusterStands self.old s
            → OnOk result ((t : ClusterState) × (AreLines schedule.now s t × ClusterStands self.new t)) }
    {
        for line in schedule {
            self.take_line(line)?;
        }
        Ok(())
    }

    fn take_line(&mut self, line: &Line) -> Result<(), NoMemory>
        ensures { (s : ClusterState) → ClusterStands self.old s
            → OnOk result ((t : ClusterState) × (IsLine line.now s t × ClusterStands self.new t)) }
    {
        match line {
            Line::One(event) => self.take_one(event),
            Line::Auto(most) => self.advance_by(*most),
        }
    }

    /// Is given an event, where the job hasn't ended.
    fn take_one(&mut self, event: &Event) -> Result<(), NoMemory>
        ensures { (s : ClusterState) → ClusterStands self.old s
            → OnOk result ((t : ClusterState) × (IsOne (has_ended s) event.now s t × ClusterStands self.new t)) }
    {
        if self.control.outcome().is_none() {
            self.step(event)?;
        }
        Ok(())
    }

    /// Is given so many events by the default rule, fewer where none is enabled any more.
    fn advance_by(&mut self, most: u32) -> Result<(), NoMemory>
        ensures { (s : ClusterState) → ClusterStands self.old s
            → OnOk result ((t : ClusterState) × (IsAuto most s t × ClusterStands self.new t)) }
    {
        for _ in 0..most {
            if !self.advance()? {
                return Ok(());
            }
        }
        Ok(())
    }

    /// Is given events by the default rule until none is enabled.
    fn go_on(&mut self) -> Result<(), NoMemory>
        ensures { (s : ClusterState) → ClusterStands self.old s
            → OnOk result ((t : ClusterState) × (IsRest s t × ClusterStands self.new t)) }
    {
        loop {
            if !self.advance()? {
                return Ok(());
            }
        }
    }

    /// Is given the next event by the default rule, and tells whether there was one.
    fn advance(&mut self) -> Result<bool, NoMemory>
        ensures advance { (s : ClusterState) → ClusterStands self.old s
            → IfOk result (λ went. (t : ClusterState) × (IsAdvance went s t × ClusterStands self.new t)) }
        ensures given { IfOk result (λ went. went ≡ true
            → length self.new.given.items ≡ length self.old.given.items + 1) }
    {
        match self.next_event() {
            Some(event) => {
                self.step(&event)?;
                Ok(true)
            }
            None => Ok(false),
        }
    }

    fn end(&self) -> Result<RunOutcome, NoMemory>
        ensures { (s : ClusterState) → ClusterStands self.now s
            → IfOk result (λ outcome. ended_as s.control.outcome ≡ Some outcome) }
    {
        match self.control.outcome() {
            Some(Outcome::Done) => Ok(RunOutcome::Done),
            Some(Outcome::Limit) => Ok(RunOutcome::Limit),
            Some(Outcome::NoWorker) => Ok(RunOutcome::NoWorker),
            Some(Outcome::NoMemory) => Err(NoMemory),
            None => Ok(RunOutcome::Stalled),
        }
    }
}

impl Moving {
    /// Whether something of its kind waits at a worker.
    fn is_open(self, node: &Node) -> bool
        ensures { (number : ℕ) (state : node_state) → IsNode number node.now state
            → (worker : ℕ) → result ≡ may_take (event_of self worker) state }
    {
        match self {
            Moving::Report => !node.reports.is_empty(),
            Moving::Finish => node.batch.is_some(),
            Moving::Order => !node.orders.is_empty(),
            Moving::Begin => node.may_begin(1),
        }
    }

    fn event(self, worker: u32) -> Event
        ensures { result ≡ event_of self worker }
    {
        match self {
            Moving::Report => Event::Report(worker),
            Moving::Finish => Event::Finish(worker),
            Moving::Order => Event::Order(worker),
            Moving::Begin => Event::Begin { worker, most: 1 },
        }
    }
}
