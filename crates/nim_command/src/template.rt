use crate::{Edit, Half};
use nim_base::{Object, Seq, Slot, TaskForm, Worker};

/// The half of a worker template that the controller keeps: what all workers do for a block, and what has to hold
/// before and holds after it. Lists of halves, homes and owners have one place a worker or a task.
#[derive(Debug, Drop)]
pub struct WorkerTemplate {
    pub block: u8,
    pub forms: Seq<TaskForm>,
    /// What each worker does, by worker.
    pub halves: Seq<Half>,
    /// The halves before any edit.
    pub built: Seq<Half>,
    /// The main slots that have to hold the latest version of their object.
    pub preconditions: Seq<(Worker, Object)>,
    /// The main slots that the halves write, each with the offset of its last content.
    pub effect: Seq<(Worker, Slot, u16)>,
    pub homes: Seq<Worker>,
    pub owners: Seq<Worker>,
    /// The edits that no order carries yet.
    pub unsent: Seq<(Worker, Edit)>,
}
