//! The outside, as three traits: files, the sources that they open, and sinks. Each counts its
//! faults, so that an answer that blames the outside can be held against the count. Forms in memory
//! tell their bytes; those of the system tell nothing.
#![tactic(auto)]

mod files;
mod host_files;
mod host_sink;
mod load;
mod mem_files;
mod mem_sink;
mod mem_source;
mod sink;
mod source;
mod write;

pub use files::{Files, OpenFault};
pub use host_files::{HostFiles, HostSource};
pub use host_sink::HostSink;
pub use load::{LoadFault, read_all};
pub use mem_files::{FileFail, MemFiles};
pub use mem_sink::MemSink;
pub use mem_source::MemSource;
pub use sink::Sink;
pub use source::{Failed, Source};
pub use write::{WriteFault, write_all};
