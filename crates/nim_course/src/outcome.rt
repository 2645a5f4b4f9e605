use nim_base::Instance;

/// How a job ended.
#[derive(Clone, Copy, Debug, PartialEq, Eq)]
pub enum Outcome {
    /// Its driver is at its end, and no instance is in flight.
    Done,
    /// It passes its limits.
    Limit,
    /// No worker is live.
    NoWorker,
    /// Memory was refused, at the controller or at a live worker.
    NoMemory,
}

/// What a controller awaits that has no outcome yet.
#[derive(Clone, Copy, Debug, PartialEq, Eq)]
pub enum Waiting {
    /// What was fetched under this ticket, the smallest that is open.
    Value { ticket: u32 },
    /// That one of the instances in flight ends, so that there is room for the next; this is the oldest.
    Room { instance: Instance },
    /// The instances in flight at the driver's end; this is the oldest.
    End { instance: Instance },
    /// A turn.
    Turn,
}
