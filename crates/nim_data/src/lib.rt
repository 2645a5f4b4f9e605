//! The values that a data file gives a job, or the first line that a rule refuses.
#![tactic(auto)]

mod data;
mod fault;
mod lines;
mod reading;
mod wanted;

pub use data::read_data;
pub use fault::DataFault;
pub use wanted::Wanted;
