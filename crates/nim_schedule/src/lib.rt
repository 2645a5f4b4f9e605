//! What a schedule file says, line by line, or the first line that a rule refuses.
#![tactic(auto)]

mod event;
mod fault;
mod fields;
mod kind;
mod line;
mod schedule;
mod words;

pub use event::{Event, Line};
pub use fault::ScheduleFault;
pub use schedule::read_schedule;
