//! What a worker keeps: a value in each slot, and the frames of data that came, by their keys.
#![tactic(auto)]

mod held;
mod inbox;
mod key;
mod store;

pub use held::Held;
pub use inbox::Inbox;
pub use key::Key;
pub use store::Store;
