ghost use Rattle.std.specs.Prelude.{◌≡◌, None, []};
ghost use Rattle.nim_worker.specs.Stands.{CoreStands};

use crate::admitted::Admitted;
use crate::room::Room;
use nim_base::{Epoch, Worker};
use nim_plan::Installed;
use nim_store::{Inbox, Store};
use std::alloc::Global;

/// A worker without its links: it takes orders and frames of data, completes the commands that it is asked for, and
/// gives reports and frames. What has happened at it, and which batch is out, is `CoreStands` of `specs/Stands.antt`.
#[derive(Drop)]
pub struct WorkerCore {
    pub(crate) alloc: Global,
    pub(crate) worker: Worker,
    pub(crate) begun: bool,
    pub(crate) epoch: Epoch,
    pub(crate) store: Store,
    pub(crate) inbox: Inbox,
    pub(crate) installed: Installed,
    pub(crate) admitted: Admitted,
    /// Room for a batch, from the first Reset on; the batch that is out has it.
    pub(crate) room: Option<Room>,
    /// Whether a batch is out, and whether it was begun before the last Reset.
    pub(crate) busy: bool,
    pub(crate) stale: bool,
    /// Memory was refused while a batch was finished.
    pub(crate) failed: bool,
}

impl WorkerCore {
    /// Nothing has happened at it; takes no memory.
    pub fn new(alloc: Global, worker: Worker) -> WorkerCore
        ensures stands { CoreStands result None [] }
        ensures worker { result.worker ≡ worker }
    {
        WorkerCore {
            alloc,
            worker,
            begun: false,
            epoch: 0,
            store: Store::new(alloc),
            inbox: Inbox::new(alloc),
            installed: Installed::new(alloc),
            admitted: Admitted::new(alloc),
            room: None,
            busy: false,
            stale: false,
            failed: false,
        }
    }

    /// The number that it was made with.
    pub fn worker(&self) -> Worker
        ensures { result ≡ self.now.worker }
    {
        self.worker
    }

    /// Whether a batch is out.
    pub fn busy(&self) -> bool
        ensures { result ≡ self.now.busy }
    {
        self.busy
    }

    /// Whether the batch that is out was begun before the last Reset, so that it completes nothing.
    pub fn stale(&self) -> bool
        ensures { result ≡ self.now.stale }
    {
        self.stale
    }
}
