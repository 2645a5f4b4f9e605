ghost use Rattle.std.specs.Prelude.{◌≡◌, ◌+◌, ◌++◌, ◌∷◌, ℕ, [], true, length, IfOk, IsErr, OnErr, OnOk};
ghost use Rattle.nim_schedule.specs.declared.event.Event.TheVariants as event_is;
ghost use Rattle.nim_lockstep.specs.Cluster.{ClusterState};
ghost use Rattle.nim_lockstep.specs.Events.{IsStep, passed};
ghost use Rattle.nim_lockstep.specs.Events as events;
ghost use Rattle.nim_lockstep.specs.InStep.{IsReached};
ghost use Rattle.nim_cluster.specs.Stands.{StandsInStep, ClusterStands};
ghost use Rattle.nim_cluster.specs.Steps.{HasPassed};

use crate::Cluster;
use nim_base::{Copied, NoMemory};
use nim_lockstep::{Given, clusters_stay_in_step, events_go_on};
use nim_schedule::Event;

/// What a cluster did with an event.
#[derive(Clone, Copy, Debug, PartialEq, Eq)]
pub struct Step {
    /// Whether the event was done: one that isn't enabled is passed over.
    pub done: bool,
}

impl Cluster {
    /// Is given an event: it is done where it is enabled, and else passed over. Behind a report the controller takes a
    /// turn. Once memory was refused the cluster has failed, and each later call answers so.
    pub fn step(&mut self, event: &Event) -> Result<Step, NoMemory>
        ensures step { (s : ClusterState) → ClusterStands self.old s
            → IfOk result (λ step. (t : ClusterState) × (IsStep s event.now step.done t × ClusterStands self.new t)) }
        ensures in_step { (s : ClusterState) → ClusterStands self.old s → IsReached s
            → IfOk result (λ step. (t : ClusterState) × (IsStep s event.now step.done t × StandsInStep self.new t)) }
        ensures given { OnOk result (length self.new.given.items ≡ length self.old.given.items + 1) }
        ensures failed { OnErr result (self.new.failed ≡ true) }
        ensures stays { self.old.failed ≡ true → IsErr result }
    {
        if self.failed {
            return Err(NoMemory);
        }
        clusters_stay_in_step();
        events_go_on();
        let step = self.give(event);
        self.failed = step.is_err();
        step
    }

    /// All but the mark of a failure.
    fn give(&mut self, event: &Event) -> Result<Step, NoMemory>
        ensures step { (s : ClusterState) → ClusterStands self.old s
            → IfOk result (λ step. (t : ClusterState) × (IsStep s event.now step.done t × ClusterStands self.new t)) }
        ensures given { OnOk result (length self.new.given.items ≡ length self.old.given.items + 1) }
    {
        let done = self.is_enabled(event);
        self.given.push(Given {
            event: event.copy()?,
            done,
        })?;
        if done {
            self.pass(event)?;
        }
        Ok(Step { done })
    }

    /// Does what an enabled event says.
    fn pass(&mut self, event: &Event) -> Result<(), NoMemory>
        ensures passed { (s : ClusterState) → ClusterStands self.old s → events.is_enabled s event.now ≡ true
            → OnOk result (HasPassed s event.now self.new) }
        ensures given { self.new.given ≡ self.old.given }
    {
        match event {
            Event::Order(worker) => self.take_order(*worker),
            Event::Report(worker) => {
                self.take_report(*worker);
                self.turn()
            }
            Event::Data { from, to } => self.take_frame(*from, *to),
            Event::Begin { worker, most } => {
                self.begin(*worker, *most);
                Ok(())
            }
            Event::Finish(worker) => self.finish(*worker),
            Event::Lose(_) | Event::Propose { .. } => Ok(()),
        }
    }

    fn take_order(&mut self, worker: u32) -> Result<(), NoMemory>
        ensures stands { (s : ClusterState) → ClusterStands self.old s
            → OnOk result (ClusterStands self.new (passed s (event_is.Order worker))) }
        ensures given { self.new.given ≡ self.old.given }
    {
        let index = worker as usize;
        if index >= self.nodes.len() {
            return Ok(());
        }
        self.nodes[index].take_order()
    }

    /// The controller takes the next report of a worker, and no turn yet.
    fn take_report(&mut self, worker: u32)
        ensures stands { (s : ClusterState) → ClusterStands self.old s
            → ClusterStands self.new (passed s (event_is.Report worker)) }
        ensures given { self.new.given ≡ self.old.given }
    {
        let index = worker as usize;
        if index >= self.nodes.len() {
            return;
        }
        let from = self.nodes[index].core.worker();
        let Some(report) = self.nodes[index].take_report() else {
            return;
        };
        self.control.on_report(from, report);
    }

    fn take_frame(&mut self, from: u32, to: u32) -> Result<(), NoMemory>
        ensures stands { (s : ClusterState) → ClusterStands self.old s
            → OnOk result (ClusterStands self.new (passed s (event_is.Data from to))) }
        ensures given { self.new.given ≡ self.old.given }
    {
        let index = to as usize;
        if index >= self.nodes.len() {
            return Ok(());
        }
        self.nodes[index].take_frame(from as usize)
    }

    fn begin(&mut self, worker: u32, most: u32)
        ensures stands { (s : ClusterState) → ClusterStands self.old s
            → events.is_enabled s (event_is.Begin worker most) ≡ true
            → ClusterStands self.new (passed s (event_is.Begin worker most)) }
        ensures given { self.new.given ≡ self.old.given }
    {
        let index = worker as usize;
        if index >= self.nodes.len() {
            return;
        }
        self.nodes[index].begin(most);
    }

    fn finish(&mut self, worker: u32) -> Result<(), NoMemory>
        ensures stands { (s : ClusterState) → ClusterStands self.old s
            → events.is_enabled s (event_is.Finish worker) ≡ true
            → OnOk result (ClusterStands self.new (passed s (event_is.Finish worker))) }
        ensures given { self.new.given ≡ self.old.given }
    {
        let index = worker as usize;
        if index >= self.nodes.len() {
            return Ok(());
        }
        let outs = self.nodes[index].finish(&mut self.trace)?;
        self.send(index, outs)
    }
}
