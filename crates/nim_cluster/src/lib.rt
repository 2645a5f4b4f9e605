//! A cluster on one thread: the controller of a job and its workers, each with its links, moved by events.
#![tactic(auto)]

mod cluster;
mod deliver;
mod keep;
mod node;
mod running;
mod step;

pub use cluster::Cluster;
pub use keep::let_go;
pub use nim_lockstep::{Given, Ran};
pub use running::{RunEnd, RunOutcome, run};
pub use step::Step;
