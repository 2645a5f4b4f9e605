ghost use Rattle.std.specs.Prelude.{◌≡◌, ◌++◌, ◌∷◌, ◌&&◌, [], ℕ, true, false, if◌then◌else◌, List, Option, IsErr, IsOk, OnErr, OnOk, is_ok, nat_lt};
ghost use Rattle.nim_history.specs.History.{Framed, Happening, Ordered, WorkerState, framed, ordered};
ghost use Rattle.nim_history.specs.InTurn.{is_reset};
ghost use Rattle.nim_worker.specs.declared.batch.Batch.{Batch as batch_type};
ghost use Rattle.nim_worker.specs.Messages.{IsInstantiated, IsKept, IsReset};
ghost use Rattle.nim_worker.specs.Stands as spec;
ghost use Rattle.nim_worker.specs.Stands.{CoreStands, CoreStandsAt};

use crate::WorkerCore;
use crate::admitted::Admitted;
use crate::head::GroupHead;
use crate::room::Room;
use nim_base::{Epoch, Instance, NoMemory, Position, Seq, Shape, Version};
use nim_command::{Command, Edit};
use nim_message::{Data, ToWorker};
use nim_plan::Installed;

impl WorkerCore {
    /// Takes an order. One that comes before the first Reset, or names another epoch than the last, is dropped, and
    /// takes no memory. A core that has failed takes none.
    pub fn on_message(&mut self, order: ToWorker) -> Result<(), NoMemory>
        ensures stands { (history : List Happening) (out : Option batch_type) → CoreStands self.old out history
            → OnOk result (CoreStands self.new out (history ++ Ordered order ∷ [])) }
        ensures err { (history : List Happening) (out : Option batch_type) → CoreStands self.old out history
            → OnErr result (CoreStands self.new out history) }
        ensures dropped { spec.is_passed self.old order ≡ true → self.old.failed ≡ false → IsOk result }
        ensures stale { self.new.stale ≡ (if is_ok result && is_reset order then self.old.busy else self.old.stale) }
        ensures busy { self.new.busy ≡ self.old.busy }
        ensures worker { self.new.worker ≡ self.old.worker }
        ensures failed { self.old.failed ≡ true → IsErr result }
        ensures stays { self.new.failed ≡ self.old.failed }
    {
        if self.failed {
            return Err(NoMemory);
        }
        if self.passes_over(&order) {
            return Ok(());
        }
        self.take(order)
    }

    /// Takes a frame of data. One of an epoch before the last Reset's is dropped, and takes no memory. A core that has
    /// failed takes none.
    pub fn on_data(&mut self, frame: Data) -> Result<(), NoMemory>
        ensures stands { (history : List Happening) (out : Option batch_type) → CoreStands self.old out history
            → OnOk result (CoreStands self.new out (history ++ Framed frame ∷ [])) }
        ensures err { (history : List Happening) (out : Option batch_type) → CoreStands self.old out history
            → OnErr result (CoreStands self.new out history) }
        ensures dropped { nat_lt frame.epoch self.old.epoch ≡ true → self.old.failed ≡ false → IsOk result }
        ensures stale { self.new.stale ≡ self.old.stale }
        ensures busy { self.new.busy ≡ self.old.busy }
        ensures worker { self.new.worker ≡ self.old.worker }
        ensures failed { self.old.failed ≡ true → IsErr result }
        ensures stays { self.new.failed ≡ self.old.failed }
    {
        if self.failed {
            return Err(NoMemory);
        }
        if frame.epoch < self.epoch {
            return Ok(());
        }
        self.inbox.keep(frame)
    }

    /// Whether an order asks for nothing: a Stop does, and one of another epoch.
    fn passes_over(&self, order: &ToWorker) -> bool
        ensures { result ≡ spec.is_passed self.now order.now }
    {
        match order {
            ToWorker::Reset { .. } => false,
            ToWorker::Stop => true,
            ToWorker::Single { epoch, .. }
            | ToWorker::InstallTemplate { epoch, .. }
            | ToWorker::Instantiate { epoch, .. }
            | ToWorker::InstallPatch { epoch, .. }
            | ToWorker::RunPatch { epoch, .. } => !self.is_current(*epoch),
        }
    }

    fn is_current(&self, epoch: Epoch) -> bool
        ensures { result ≡ spec.is_current self.now epoch }
    {
        self.begun && epoch == self.epoch
    }

    /// Takes an order that isn't passed over.
    fn take(&mut self, order: ToWorker) -> Result<(), NoMemory>
        requires { spec.is_passed self.old order ≡ false }
        ensures at { (state : WorkerState) (out : Option batch_type) → CoreStandsAt self.old out state
            → OnOk result (CoreStandsAt self.new out (ordered state order)) }
        ensures err { (state : WorkerState) (out : Option batch_type) → CoreStandsAt self.old out state
            → OnErr result (CoreStandsAt self.new out state) }
        ensures stale { self.new.stale ≡ (if is_ok result && is_reset order then self.old.busy else self.old.stale) }
        ensures busy { self.new.busy ≡ self.old.busy }
        ensures worker { self.new.worker ≡ self.old.worker }
        ensures stays { self.new.failed ≡ self.old.failed }
    {
        match order {
            ToWorker::Reset { epoch, shapes, .. } => self.reset(epoch, shapes),
            ToWorker::Single {
                epoch,
                instance,
                commands,
            } => {
                let head = head(epoch, instance, true);
                self.admitted.admit(head, false, commands.into_vec())
            }
            ToWorker::InstallTemplate { block, entries, .. } => {
                self.installed.install_template(block, entries)
            }
            ToWorker::Instantiate {
                epoch,
                instance,
                block,
                base,
                args,
                versions,
                edits,
            } => {
                let head = head(epoch, instance, false);
                let asked = Asked {
                    base,
                    args,
                    versions,
                    edits,
                };
                instantiate(&mut self.installed, &mut self.admitted, head, block, asked)
            }
            ToWorker::InstallPatch { patch, copies, .. } => {
                self.installed.install_patch(patch, copies)
            }
            ToWorker::RunPatch {
                epoch,
                instance,
                patch,
                versions,
            } => {
                let commands = self.installed.run_patch(patch, versions.as_slice())?;
                self.admitted
                    .admit(head(epoch, instance, false), false, commands)
            }
            ToWorker::Stop => Ok(()),
        }
    }

    /// Begins an epoch with empty slots, and without the frames of earlier ones. It makes the room of a batch where it
    /// isn't there.
    fn reset(&mut self, epoch: Epoch, shapes: Seq<Shape>) -> Result<(), NoMemory>
        ensures ok { OnOk result (IsReset self.old epoch shapes self.new) }
        ensures err { OnErr result (self.new ≡ self.old) }
    {
        if self.room.is_none() {
            self.room = Some(Room::new(self.alloc)?);
        }
        self.begun = true;
        self.epoch = epoch;
        self.store.reset(shapes.into_vec());
        self.inbox.forget_before(epoch);
        self.installed = Installed::new(self.alloc);
        self.admitted = Admitted::new(self.alloc);
        self.stale = self.busy;
        Ok(())
    }
}

/// What an instance of a block is asked for with.
#[derive(Drop)]
pub(crate) struct Asked {
    pub(crate) base: Position,
    pub(crate) args: Seq<i64>,
    pub(crate) versions: Seq<Version>,
    pub(crate) edits: Seq<Edit>,
}

fn head(epoch: Epoch, instance: Instance, single: bool) -> GroupHead
    ensures { result ≡ record { epoch = epoch; instance = instance; single = single } }
{
    GroupHead {
        epoch,
        instance,
        single,
    }
}

/// Edits the half of a block, and admits the commands that it then stands for. After want of memory the half is as it
/// was.
fn instantiate(
    installed: &mut Installed,
    admitted: &mut Admitted,
    head: GroupHead,
    block: u8,
    asked: Asked,
) -> Result<(), NoMemory>
    ensures ok { OnOk result (IsInstantiated installed.old admitted.old head block asked installed.new admitted.new) }
    ensures err { OnErr result (IsKept installed.old admitted.old installed.new admitted.new) }
{
    let (half, commands) = installed.instance(
        block,
        asked.base,
        asked.args.as_slice(),
        asked.versions.as_slice(),
        asked.edits.as_slice(),
    )?;
    installed.make_place(block)?;
    admitted.admit(head, true, commands)?;
    installed.replace(block, half);
    Ok(())
}
