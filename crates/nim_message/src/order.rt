use nim_base::{Copied, Epoch, Instance, NoMemory, Position, Seq, Shape, Version, Worker};
use nim_command::{Command, Edit, Entry, PatchPart};

/// An order of the controller to a worker. What a list of orders asks for is `session_of` of `specs/Orders.antt`.
#[derive(Debug, Drop)]
pub enum ToWorker {
    /// Commands that are asked for once.
    Single {
        epoch: Epoch,
        instance: Instance,
        commands: Seq<Command>,
    },
    /// The worker's half of a block, in place of the one that it has.
    InstallTemplate {
        epoch: Epoch,
        block: u8,
        entries: Seq<Entry>,
    },
    /// Edits the worker's half of a block, and asks for what it then stands for: its arguments, the position of the
    /// block's task 0, and the versions of what it receives as the block began with it.
    Instantiate {
        epoch: Epoch,
        instance: Instance,
        block: u8,
        base: Position,
        args: Seq<i64>,
        versions: Seq<Version>,
        edits: Seq<Edit>,
    },
    /// The worker's ends of the copies of a patch, in place of those that it has.
    InstallPatch {
        epoch: Epoch,
        patch: u8,
        copies: Seq<PatchPart>,
    },
    /// Asks for the copies of a patch, with the versions of those that it receives.
    RunPatch {
        epoch: Epoch,
        instance: Instance,
        patch: u8,
        versions: Seq<Version>,
    },
    /// Begins an epoch with empty slots: the worker's number, how many workers there are, and the shapes of all
    /// objects.
    Reset {
        epoch: Epoch,
        worker: Worker,
        workers: u16,
        shapes: Seq<Shape>,
    },
    Stop,
}

impl Copied for ToWorker {
    fn copy(&self) -> Result<ToWorker, NoMemory> {
        Ok(match self {
            ToWorker::Single {
                epoch,
                instance,
                commands,
            } => ToWorker::Single {
                epoch: *epoch,
                instance: *instance,
                commands: commands.copy()?,
            },
            ToWorker::InstallTemplate {
                epoch,
                block,
                entries,
            } => ToWorker::InstallTemplate {
                epoch: *epoch,
                block: *block,
                entries: entries.copy()?,
            },
            ToWorker::Instantiate {
                epoch,
                instance,
                block,
                base,
                args,
                versions,
                edits,
            } => ToWorker::Instantiate {
                epoch: *epoch,
                instance: *instance,
                block: *block,
                base: *base,
                args: args.copy()?,
                versions: versions.copy()?,
                edits: edits.copy()?,
            },
            ToWorker::InstallPatch {
                epoch,
                patch,
                copies,
            } => ToWorker::InstallPatch {
                epoch: *epoch,
                patch: *patch,
                copies: copies.copy()?,
            },
            ToWorker::RunPatch {
                epoch,
                instance,
                patch,
                versions,
            } => ToWorker::RunPatch {
                epoch: *epoch,
                instance: *instance,
                patch: *patch,
                versions: versions.copy()?,
            },
            ToWorker::Reset {
                epoch,
                worker,
                workers,
                shapes,
            } => ToWorker::Reset {
                epoch: *epoch,
                worker: *worker,
                workers: *workers,
                shapes: shapes.copy()?,
            },
            ToWorker::Stop => ToWorker::Stop,
        })
    }
}
