//! What orders come to, and which lists of orders a worker may be given.
#![tactic(auto)]

mod contents;
mod covering;
mod installed;
mod laws;
mod listing;
mod member;
mod ranks;
mod slots;
mod waits;

pub use contents::{holds, version_after};
pub use covering::covered;
pub use installed::Installed;
pub use laws::legal_by_steps;
pub use listing::commands;
pub use nim_command::Rank;
pub use ranks::rank;
pub use slots::is_among;
