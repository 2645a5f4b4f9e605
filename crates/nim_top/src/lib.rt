//! The top calls: words and files in, bytes and a status out.
#![tactic(auto)]

mod check;
mod fault;
mod load;
mod read;
mod replay;
mod replayed;
mod setup;
mod status;
mod tell;
mod verb;
mod words;

pub use check::top_check;
pub use replay::top_replay;
pub use status::Status;
