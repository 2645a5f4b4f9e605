//! The course of a cluster: what it has come to, what each event does to it, and the law that it then stays in step
//! with
//! program order.
#![tactic(auto)]

mod given;
mod laws;
mod ran;

pub use given::Given;
pub use laws::{clusters_stay_in_step, events_are_few, events_go_on};
pub use ran::Ran;
