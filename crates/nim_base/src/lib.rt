//! What every layer speaks of: numbers, values, tasks, and the small lists and names that they hold.
#![tactic(auto)]

mod counting;
mod fitting;
mod memory;
mod name;
mod number;
mod quotient;
mod seq;
mod short;
mod task;
mod text;
mod value;

pub use fitting::fit;
pub use memory::{Copied, NoMemory};
pub use name::Name;
pub use number::{Epoch, Instance, Object, Position, Shape, Slot, Version, Worker};
pub use quotient::divided;
pub use seq::{Seq, copies};
pub use short::Short;
pub use task::{Func, Param, Task, TaskForm};
pub use text::value_text;
pub use value::Value;
