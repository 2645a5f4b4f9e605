//! A task of an installed template moves to another worker: the edits that move it, and the template behind them.
#![tactic(auto)]

mod edits;
mod fault;
mod laws;
mod mask;
mod migration;

pub use fault::{EditFault, EditRefused};
pub use laws::{built_is_in_form, moved_stays_good};
pub use migration::migrate;
