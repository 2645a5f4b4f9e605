use nim_base::Worker;
use nim_message::{Data, FromWorker};

/// What a worker gives when commands are complete: a report to the controller, or a frame of data to another worker.
#[derive(Debug, Drop)]
pub enum Out {
    Report(FromWorker),
    Data(Worker, Data),
}
