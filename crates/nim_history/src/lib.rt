//! What a worker comes to: which orders and frames of data it was handed and which commands it completed, in the order
//! in which that happened, and the law that what it gives is then true. Its one type is what a worker gives.
#![tactic(auto)]

mod laws;
mod out;

pub use laws::{commands_in_turn, histories_are_true, history_goes_on};
pub use out::Out;
