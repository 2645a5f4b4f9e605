//! What transcripts have in common: how words, numbers, functions, commands and entries are written in them, and a
//! transcript that is asked line by line.
#![tactic(auto)]

mod fault;
mod funcs;
mod reading;
mod shown;
mod subject;

pub use fault::LineFault;
pub use funcs::{func, func_name, params};
pub use reading::{halves, number, numbers, parts, words};
pub use shown::{
    push_answer, push_command, push_count, push_entry, push_number, push_params, push_slots,
};
pub use subject::{Subject, differences_from};
