use crate::{Data, FromWorker, ToWorker};

/// What goes over a link, whichever way.
#[derive(Debug, Drop)]
pub enum Message {
    Order(ToWorker),
    Report(FromWorker),
    Data(Data),
}
