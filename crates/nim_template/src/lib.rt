//! A block recorded as a controller template, and the worker template that is built from it: what all workers do for
//! the block, written once.
#![tactic(auto)]

mod build;
mod closing;
mod entry;
mod laws;
mod recorder;
mod slots;
mod template;
mod walk;

pub use build::build_halves;
pub use laws::maps_stay_before;
pub use recorder::Recorder;
pub use template::ControllerTemplate;
