use nim_base::{Copied, NoMemory, Seq};

/// What may happen next between a controller and its workers, which are named by their numbers. An event may name a
/// worker that isn't there.
#[derive(Debug, Drop)]
pub enum Event {
    /// A worker takes its next order.
    Order(u32),
    /// The controller takes the next report of a worker.
    Report(u32),
    /// A worker takes the next frame of data from another.
    Data { from: u32, to: u32 },
    /// A worker begins a batch of at most so many commands.
    Begin { worker: u32, most: u32 },
    /// A worker finishes its batch.
    Finish(u32),
    /// A worker is lost.
    Lose(u32),
    /// An edit is proposed: a task of a block goes to a worker.
    Propose { block: Seq<u8>, task: u32, to: u32 },
}

/// A line of a schedule.
#[derive(Debug, Drop)]
pub enum Line {
    One(Event),
    /// So many events by the default rule.
    Auto(u32),
}

impl Copied for Event {
    fn copy(&self) -> Result<Event, NoMemory> {
        Ok(match self {
            Event::Order(worker) => Event::Order(*worker),
            Event::Report(worker) => Event::Report(*worker),
            Event::Data { from, to } => Event::Data {
                from: *from,
                to: *to,
            },
            Event::Begin { worker, most } => Event::Begin {
                worker: *worker,
                most: *most,
            },
            Event::Finish(worker) => Event::Finish(*worker),
            Event::Lose(worker) => Event::Lose(*worker),
            Event::Propose { block, task, to } => Event::Propose {
                block: block.copy()?,
                task: *task,
                to: *to,
            },
        })
    }
}
