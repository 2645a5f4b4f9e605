//! Files of tests in the form of txtar: sections of text with a heading each, and where two texts differ.
#![tactic(auto)]

mod compare;
mod fault;
mod generators;
mod program;
mod section;

pub use compare::difference;
pub use fault::FileFault;
pub use generators::push_escaped;
pub use program::{Test, all_pass};
pub use section::{Section, sections, text_of};
