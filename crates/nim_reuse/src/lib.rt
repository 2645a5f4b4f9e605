//! A block from its second instance on: its worker template is built and installed once, and from then on an instance
//! costs an order to each worker, behind a patch where data has to move first.
#![tactic(auto)]

mod decided;
mod decisions;
mod instance;
mod laws;
mod orders;
mod ready;
mod reused;

pub use decided::Decided;
pub use decisions::DecisionMap;
pub use instance::InstanceAt;
pub use laws::{decisions_stand, instances_go_on, later_instances_are_short};
pub use ready::Ready;
pub use reused::{Patched, Reused};
