use nim_base::{Copied, Epoch, Instance, NoMemory, Object, Position, Seq, Value, Version, Worker};

/// A report of a worker to the controller.
#[derive(Debug, Drop)]
pub enum FromWorker {
    /// What a slot had when it was fetched.
    Value {
        epoch: Epoch,
        ticket: u32,
        object: Object,
        version: Version,
        value: Value,
    },
    /// The task at a position ran, and each of its reads had this version.
    Ran {
        epoch: Epoch,
        position: Position,
        reads: Seq<(Object, Version)>,
    },
    /// All commands of an instance are complete.
    Through {
        epoch: Epoch,
        instance: Instance,
    },
    /// Memory was refused: the worker does nothing any more.
    NoMemory,
    /// The link to another worker failed.
    PeerDown {
        peer: Worker,
    },
}

impl Copied for FromWorker {
    fn copy(&self) -> Result<FromWorker, NoMemory> {
        Ok(match self {
            FromWorker::Value {
                epoch,
                ticket,
                object,
                version,
                value,
            } => FromWorker::Value {
                epoch: *epoch,
                ticket: *ticket,
                object: *object,
                version: *version,
                value: value.copy()?,
            },
            FromWorker::Ran {
                epoch,
                position,
                reads,
            } => FromWorker::Ran {
                epoch: *epoch,
                position: *position,
                reads: reads.copy()?,
            },
            FromWorker::Through { epoch, instance } => FromWorker::Through {
                epoch: *epoch,
                instance: *instance,
            },
            FromWorker::NoMemory => FromWorker::NoMemory,
            FromWorker::PeerDown { peer } => FromWorker::PeerDown { peer: *peer },
        })
    }
}
