//! What controller and workers tell each other: orders, reports and frames of data.
#![tactic(auto)]

mod frame;
mod lengths;
mod message;
mod order;
mod ranges;
mod report;

pub use frame::Data;
pub use lengths::{order_length, report_length};
pub use message::Message;
pub use order::ToWorker;
pub use ranges::in_range;
pub use report::FromWorker;
