//! A job as a plain tree, what it means when its tasks run one by one, and the machine that takes its
//! statements in order.
#![tactic(auto)]

mod arith;
mod ask;
mod block;
mod copies;
mod driver;
mod forms;
mod item;
mod job;
mod laws;
mod layout;
mod level;
mod objects;
mod path;
mod span;
mod state;
mod stmt;
mod tasks;
mod wholeness;

pub use ask::{Ask, Asked};
pub use block::{Block, Place, Ref, Stage};
pub use driver::DriverMachine;
pub use forms::block_forms;
pub use item::Item;
pub use job::{Init, Job, Var};
pub use laws::{division_is_total, machine_follows, versions_are_read};
pub use layout::{first_object, task_count};
pub use level::{Level, LevelKind};
pub use objects::shapes;
pub use span::Span;
pub use state::DriverState;
pub use stmt::{Arith, Atom, Cmp, Cond, Stmt};
pub use tasks::{block_tasks, param_of};
pub use wholeness::{has_distinct, is_checked, is_whole};
