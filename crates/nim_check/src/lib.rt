//! The job that a driver's tree stands for, or the first line that a rule refuses; and loaded data, put into a job.
#![tactic(auto)]

mod blocks;
mod body;
mod driver;
mod fault;
mod laws;
mod loading;
mod names;
mod scope;
mod stages;
mod statements;
mod vars;

pub use driver::{check, read_driver, read_job};
pub use fault::{CheckFault, Input, ReadFault};
pub use laws::printed_is_loaded;
pub use loading::load;
