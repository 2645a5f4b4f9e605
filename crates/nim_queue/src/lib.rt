//! Commands that wait for others, handed out once those are complete.
#![tactic(auto)]

mod arrivals;
mod complete;
mod join;
mod look;
mod queue;
mod room;
mod slot_use;
mod tickets;
mod waiting;

pub use queue::BeforeQueue;
