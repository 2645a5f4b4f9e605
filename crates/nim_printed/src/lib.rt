//! The laws of a printer, which is a definition: what it prints of a job is read as that job. No program calls them.
#![tactic(auto)]

mod laws;

pub use laws::{job_is_read, job_stands, tree_is_read, words_are_read};
