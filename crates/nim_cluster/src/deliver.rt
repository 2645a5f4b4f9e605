ghost use Rattle.std.specs.Prelude.{◌≡◌, ◌++◌, ◌∷◌, ℕ, [], OnOk};
ghost use Rattle.std.specs.List.{fold};
ghost use Rattle.nim_lockstep.specs.Cluster.{ClusterState};
ghost use Rattle.nim_lockstep.specs.Events.{HasTurned, at_node, order_sent, out_sent};
ghost use Rattle.nim_lockstep.specs.Nodes.{frame_sent};
ghost use Rattle.nim_cluster.specs.Stands.{ClusterStands};

use crate::Cluster;
use nim_base::{NoMemory, Worker};
use nim_message::{Data, FromWorker, ToWorker};
use nim_worker::Out;

impl Cluster {
    /// The controller takes a turn, and its orders wait for their workers.
    pub(crate) fn turn(&mut self) -> Result<(), NoMemory>
        ensures turned { (s : ClusterState) → ClusterStands self.old s
            → OnOk result ((t : ClusterState) × (HasTurned s t × ClusterStands self.new t)) }
        ensures given { self.new.given ≡ self.old.given }
    {
        let orders = self.control.turn()?;
        self.put_orders(orders)
    }

    /// Orders wait for their workers, in order.
    fn put_orders(&mut self, orders: Vec<(Worker, ToWorker)>) -> Result<(), NoMemory>
        ensures stands { (s : ClusterState) → ClusterStands self.old s
            → OnOk result (ClusterStands self.new (fold order_sent s orders.items)) }
        ensures rest { self.new ≡ record self.old { nodes = self.new.nodes } }
    {
        for (worker, order) in orders {
            self.put_order(worker, order)?;
        }
        Ok(())
    }

    /// An order waits for its worker, if it is there.
    fn put_order(&mut self, worker: Worker, order: ToWorker) -> Result<(), NoMemory>
        ensures stands { (s : ClusterState) → ClusterStands self.old s
            → OnOk result (ClusterStands self.new (order_sent s (worker, order))) }
        ensures rest { self.new ≡ record self.old { nodes = self.new.nodes } }
    {
        let index = usize::from(worker.0);
        if index >= self.nodes.len() {
            return Ok(());
        }
        self.nodes[index].put_order(order)
    }

    /// What a worker gave waits for whom it is for, in order.
    pub(crate) fn send(&mut self, from: usize, outs: Vec<Out>) -> Result<(), NoMemory>
        ensures stands { (s : ClusterState) → ClusterStands self.old s
            → OnOk result (ClusterStands self.new (fold (out_sent from) s outs.items)) }
        ensures rest { self.new ≡ record self.old { nodes = self.new.nodes } }
    {
        for out in outs {
            self.send_one(from, out)?;
        }
        Ok(())
    }

    /// A report waits for the controller, a frame of data for its worker, if it is there.
    fn send_one(&mut self, from: usize, out: Out) -> Result<(), NoMemory>
        ensures stands { (s : ClusterState) → ClusterStands self.old s
            → OnOk result (ClusterStands self.new (out_sent from s out)) }
        ensures rest { self.new ≡ record self.old { nodes = self.new.nodes } }
    {
        match out {
            Out::Report(report) => self.put_report(from, report),
            Out::Data(peer, frame) => self.put_frame(usize::from(peer.0), from, frame),
        }
    }

    fn put_report(&mut self, from: usize, report: FromWorker) -> Result<(), NoMemory>
        ensures stands { (s : ClusterState) → ClusterStands self.old s
            → OnOk result (ClusterStands self.new (out_sent from s (Out.Report report))) }
        ensures rest { self.new ≡ record self.old { nodes = self.new.nodes } }
    {
        if from >= self.nodes.len() {
            return Ok(());
        }
        self.nodes[from].put_report(report)
    }

    fn put_frame(&mut self, to: usize, from: usize, frame: Data) -> Result<(), NoMemory>
        ensures stands { (s : ClusterState) → ClusterStands self.old s
            → OnOk result (ClusterStands self.new (at_node (frame_sent from frame) to s)) }
        ensures rest { self.new ≡ record self.old { nodes = self.new.nodes } }
    {
        if to >= self.nodes.len() {
            return Ok(());
        }
        self.nodes[to].put_frame(from, frame)
    }
}
