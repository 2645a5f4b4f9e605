use nim_schedule::Event;

/// An event that was given to a cluster, and whether it was done: one that isn't enabled is passed over.
#[derive(Debug, Drop)]
pub struct Given {
    pub event: Event,
    pub done: bool,
}
