use nim_base::{Epoch, Instance};

/// What is known of a group: its epoch, its instance, and whether it came as a Single, whose Runs are reported.
#[derive(Clone, Copy, Debug)]
pub(crate) struct GroupHead {
    pub(crate) epoch: Epoch,
    pub(crate) instance: Instance,
    pub(crate) single: bool,
}
