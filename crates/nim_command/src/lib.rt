//! What a worker is asked to do: commands on its slots, and the halves of templates that commands are made of.
#![tactic(auto)]

mod before;
mod command;
mod copies;
mod edit;
mod edited;
mod entry;
mod expansion;
mod half;
mod last_uses;
mod moved;
mod numbers;
mod rank;
mod slots;
mod template;

pub use before::entries_by_rule;
pub use command::{Command, Kind};
pub use edit::{Edit, PatchPart, Spec};
pub use entry::{Entry, EntryKind};
pub use expansion::patch_commands;
pub use half::Half;
pub use numbers::entry_number;
pub use rank::Rank;
pub use slots::{object_of, reads, writes};
pub use template::WorkerTemplate;
