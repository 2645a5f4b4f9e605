//! A worker: it is given orders and frames of data, completes their commands on its slots, and reports.
#![tactic(auto)]

mod admitted;
mod batch;
mod beginning;
mod complete;
mod finishing;
mod head;
mod inputs;
mod laws;
mod leave;
mod meets;
mod messages;
mod room;
mod taking;
mod worker;

pub use batch::{Batch, Work};
pub use laws::lent_batches_stand;
pub use nim_history::Out;
pub use worker::WorkerCore;
