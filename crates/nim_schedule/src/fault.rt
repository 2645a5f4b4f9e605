use nim_base::NoMemory;
use nim_lex::Refusal;

/// Why a part of a line was not read.
#[derive(Clone, Copy)]
pub enum Unread {
    /// The line has not the form.
    Malformed,
    NoMemory,
}

impl From<NoMemory> for Unread {
    ghost use Rattle.std.specs.Prelude.{◌≡◌};
    ghost use Rattle.nim_schedule.specs.declared.fault.Unread.TheVariants.{NoMemory};

    ghost from_gives = { λ _ unread. unread ≡ NoMemory };

    fn from(_refused: NoMemory) -> Unread {
        Unread::NoMemory
    }
}

/// Why a schedule was not read.
#[derive(Clone, Copy, Debug, PartialEq, Eq)]
pub enum ScheduleFault {
    /// By rule 90 or 91, which are defined in `specs/Schedule.antt` and `specs/Lines.antt`.
    Refused(Refusal),
    NoMemory,
}

impl From<NoMemory> for ScheduleFault {
    ghost use Rattle.std.specs.Prelude.{◌≡◌};
    ghost use Rattle.nim_schedule.specs.declared.fault.ScheduleFault.TheVariants.{NoMemory};

    ghost from_gives = { λ _ fault. fault ≡ NoMemory };

    fn from(_refused: NoMemory) -> ScheduleFault {
        ScheduleFault::NoMemory
    }
}
