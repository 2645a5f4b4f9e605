ghost use Rattle.std.specs.Prelude.{◌≡◌, ◌≤◌, ◌&&◌, ℕ, [], true, not, List, replicate, IfOk, IsTrue, OnOk};
ghost use Rattle.std.specs.Option.{is_some};
ghost use Rattle.nim_job.specs.Whole.{is_whole};
ghost use Rattle.nim_place.specs.Extends.{is_live};
ghost use Rattle.nim_lockstep.specs.Cluster.{ClusterState, new_node};
ghost use Rattle.nim_lockstep.specs.Events.{IsNew};
ghost use Rattle.nim_lockstep.specs.Events as events;
ghost use Rattle.nim_cluster.specs.Stands.{AreNodes, StandsInStep, ClusterStands};
ghost use Rattle.nim_cluster.specs.Steps as spec;

use crate::keep::keep_on_ok;
use crate::node::Node;
use nim_base::{NoMemory, Worker};
use nim_control::ControllerCore;
use nim_course::{Outcome, Setup, Summary};
use nim_job::Job;
use nim_lockstep::{Given, Ran};
use nim_schedule::Event;
use std::alloc::Global;

/// The controller of a job and its workers, each with its links, moved by events. What it has come to is
/// `ClusterStands` of `specs/Stands.antt`.
#[derive(Drop)]
pub struct Cluster {
    pub(crate) alloc: Global,
    pub(crate) setup: Setup,
    pub(crate) control: ControllerCore,
    /// The workers, by their numbers.
    pub(crate) nodes: Vec<Node>,
    /// The Runs that were performed.
    pub(crate) trace: Vec<Ran>,
    /// The events that it was given.
    pub(crate) given: Vec<Given>,
    /// Memory was refused while an event was given.
    pub(crate) failed: bool,
}

impl Cluster {
    /// A cluster for a job, whose controller took its first turn.
    pub fn new(alloc: Global, job: Job, setup: Setup) -> Result<Cluster, NoMemory>
        requires whole { IsTrue (is_whole job) }
        requires some { 1 ≤ setup.workers }
        requires few { setup.workers ≤ 16 }
        ensures { IfOk result (λ cluster. (s : ClusterState) × (IsNew job setup s × ClusterStands cluster s)) }
    {
        let control = ControllerCore::new(alloc, job, setup)?;
        let (control, nodes) = keep_on_ok(control, new_nodes(alloc, setup.workers))?;
        let mut cluster = Cluster {
            alloc,
            setup,
            control,
            nodes,
            trace: Vec::new(alloc),
            given: Vec::new(alloc),
            failed: false,
        };
        let turned = cluster.turn();
        let (cluster, ()) = keep_on_ok(cluster, turned)?;
        Ok(cluster)
    }

    /// Whether an event may come now: something waits for whom it names, or a batch may be begun or finished there.
    pub fn is_enabled(&self, event: &Event) -> bool
        ensures { (s : ClusterState) → ClusterStands self.now s → result ≡ events.is_enabled s event.now }
    {
        match self.nodes.get(number_in(event) as usize) {
            Some(node) => node.may_take(event) && self.goes_on(node.core.worker()),
            None => false,
        }
    }

    /// How the job ended, once it has.
    pub fn outcome(&self) -> Option<Outcome>
        ensures { (s : ClusterState) → ClusterStands self.now s → result ≡ s.control.outcome }
    {
        self.control.outcome()
    }

    /// What the job printed so far.
    pub fn output(&self) -> &[u8]
        ensures { (s : ClusterState) → ClusterStands self.now s → result.now ≡ s.control.machine.driver.output }
    {
        self.control.output()
    }

    /// What its controller counted so far.
    pub fn summary(&self) -> &Summary
        ensures { (s : ClusterState) → ClusterStands self.now s → result.now ≡ s.control.summary }
    {
        self.control.summary()
    }

    /// The Runs that were performed, in the order in which their batches were finished.
    pub fn trace(&self) -> &[Ran]
        ensures { (s : ClusterState) → ClusterStands self.now s → result.now ≡ s.trace }
    {
        self.trace.as_slice()
    }

    /// The events that it was given, in order, and whether each was done.
    pub fn given(&self) -> &[Given]
        ensures { (s : ClusterState) → ClusterStands self.now s → result.now ≡ s.given }
    {
        self.given.as_slice()
    }

    /// How the job is run.
    pub fn setup(&self) -> Setup
        ensures { (s : ClusterState) → ClusterStands self.now s → result ≡ s.setup }
    {
        self.setup
    }

    /// Whether the job hasn't ended and a worker is live. Mostly nothing waits, so this is asked last.
    pub(crate) fn goes_on(&self, worker: Worker) -> bool
        ensures { result ≡ (not (is_some self.now.control.outcome) && is_live self.now.control.live worker) }
    {
        self.control.outcome().is_none() && self.control.is_live(worker)
    }
}

/// So many workers that nothing happened at.
fn new_nodes(alloc: Global, workers: u16) -> Result<Vec<Node>, NoMemory>
    ensures { IfOk result (λ nodes. AreNodes 0 nodes.items (replicate workers (new_node workers))) }
{
    let mut nodes = Vec::new(alloc);
    let pushed = push_nodes(alloc, workers, &mut nodes);
    let (nodes, ()) = keep_on_ok(nodes, pushed)?;
    Ok(nodes)
}

/// So many of them come behind no others.
fn push_nodes(alloc: Global, workers: u16, nodes: &mut Vec<Node>) -> Result<(), NoMemory>
    requires { nodes.old.items ≡ [] }
    ensures { OnOk result (AreNodes 0 nodes.new.items (replicate workers (new_node workers))) }
{
    for number in 0..workers {
        let node = Node::new(alloc, Worker(number), workers)?;
        nodes.push(node)?;
    }
    Ok(())
}

/// The worker that takes, begins or finishes something by an event.
fn number_in(event: &Event) -> u32
    ensures { result ≡ spec.number_in event.now }
{
    match event {
        Event::Order(worker) | Event::Report(worker) | Event::Finish(worker) => *worker,
        Event::Data { to, .. } => *to,
        Event::Begin { worker, .. } => *worker,
        Event::Lose(worker) => *worker,
        Event::Propose { to, .. } => *to,
    }
}
