//! The course of a controller: what it has come to, what a turn and a report do to it, and the law that the orders
//! that it gives lead its job.
#![tactic(auto)]

mod fetched;
mod laws;
mod outcome;
mod pending;
mod setup;
mod summary;
mod summary_text;

pub use fetched::Fetched;
pub use laws::{controllers_lead, controllers_put, prints_what_is_told};
pub use outcome::{Outcome, Waiting};
pub use pending::Pending;
pub use setup::Setup;
pub use summary::{EditLine, Rollback, Summary, WorkerLine};
