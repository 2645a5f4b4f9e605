ghost use Rattle.std.specs.Prelude.{◌≡◌};
ghost use Rattle.nim_check.specs.Faults.{within};

use nim_base::NoMemory;
use nim_lex::Refusal;

/// Why there is no job.
#[derive(Clone, Copy, Debug, PartialEq, Eq)]
pub enum CheckFault {
    /// The rules are listed in `specs/Rules.antt`, those of data files in `specs/Loading.antt`.
    At(Refusal),
    NoMemory,
}

impl From<NoMemory> for CheckFault {
    ghost use Rattle.std.specs.Prelude.{◌≡◌};
    ghost use Rattle.nim_check.specs.declared.fault.CheckFault.TheVariants.{NoMemory};

    ghost from_gives = { λ _ fault. fault ≡ NoMemory };

    fn from(_refused: NoMemory) -> CheckFault {
        CheckFault::NoMemory
    }
}

/// One of the two files that a job is read from.
#[derive(Clone, Copy, Debug, PartialEq, Eq)]
pub enum Input {
    Driver,
    Data,
}

/// Why a driver and its data give no job.
#[derive(Clone, Copy, Debug, PartialEq, Eq)]
pub enum ReadFault {
    /// A rule refuses a line of this file.
    At { input: Input, refusal: Refusal },
    NoMemory,
}

impl CheckFault {
    /// The same of a file.
    pub(crate) fn within(self, input: Input) -> ReadFault
        ensures { result ≡ within input self }
    {
        match self {
            CheckFault::At(refusal) => ReadFault::At { input, refusal },
            CheckFault::NoMemory => ReadFault::NoMemory,
        }
    }
}
