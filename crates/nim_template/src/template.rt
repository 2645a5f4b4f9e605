use nim_base::{Seq, TaskForm};

/// A block as it was recorded: its tasks in order, their parameters as constants or argument numbers.
#[derive(Debug, Drop)]
pub struct ControllerTemplate {
    pub block: u8,
    pub forms: Seq<TaskForm>,
}
