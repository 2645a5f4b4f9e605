use nim_base::NoMemory;

/// Why an edit that is asked for is refused: the first of these that applies.
#[derive(Clone, Copy, Debug, PartialEq, Eq)]
pub enum EditRefused {
    /// No block has the name.
    NoSuchBlock,
    /// The block has no template that workers have.
    NotInstalled,
    /// The block has no task of this number.
    NoSuchTask,
    /// The worker isn't live.
    NotLive,
    /// The task runs at the worker already.
    SamePlace,
    /// A worker that the move touches has as many edits of the block that weren't sent yet as it may have.
    TooMany,
}

/// Why a task wasn't moved.
#[derive(Clone, Copy, Debug, PartialEq, Eq)]
pub enum EditFault {
    /// By a rule, which is defined in `specs/Refusals.antt`.
    Refused(EditRefused),
    NoMemory,
}

impl From<NoMemory> for EditFault {
    ghost use Rattle.std.specs.Prelude.{◌≡◌};
    ghost use Rattle.nim_edit.specs.declared.fault.EditFault.TheVariants.{NoMemory};

    ghost from_gives = { λ _ fault. fault ≡ NoMemory };

    fn from(_refused: NoMemory) -> EditFault {
        EditFault::NoMemory
    }
}
