//! The controller of a job on several workers: reports in, orders out. It has no transport and no worker inside.
#![tactic(auto)]

mod begin;
mod block;
mod blocks;
mod checkpoint;
mod controller;
mod counted;
mod fetch;
mod flight;
mod instance;
mod orders;
mod sites;
mod told;

pub use checkpoint::Checkpoint;
pub use controller::ControllerCore;
