ghost use Rattle.std.specs.Prelude.{◌≡◌};

use nim_base::NoMemory;
use nim_lex::Refusal;

/// Why a part of a line was not read.
#[derive(Clone, Copy)]
pub enum Unread {
    /// The line has not the form.
    Malformed,
    NoMemory,
}

impl From<NoMemory> for Unread {
    ghost use Rattle.nim_data.specs.declared.fault.Unread.TheVariants.{NoMemory};

    ghost from_gives = { λ _ unread. unread ≡ NoMemory };

    fn from(_refused: NoMemory) -> Unread {
        Unread::NoMemory
    }
}

/// Why there are no parts.
#[derive(Clone, Copy, Debug, PartialEq, Eq)]
pub enum DataFault {
    /// The rules are listed in `specs/Rules.antt`.
    At(Refusal),
    NoMemory,
}

impl From<NoMemory> for DataFault {
    ghost use Rattle.nim_data.specs.declared.fault.DataFault.TheVariants.{NoMemory};

    ghost from_gives = { λ _ fault. fault ≡ NoMemory };

    fn from(_refused: NoMemory) -> DataFault {
        DataFault::NoMemory
    }
}
