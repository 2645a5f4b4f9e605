ghost use Rattle.std.specs.Prelude.{◌≡◌};

use nim_base::NoMemory;
use nim_lex::Refusal;

/// Why a part of a line was not read.
#[derive(Clone, Copy)]
pub enum Unread {
    /// The line has not the form.
    Malformed,
    NoMemory,
}

impl From<NoMemory> for Unread {
    ghost use Rattle.nim_parse.specs.declared.fault.Unread.TheVariants.{NoMemory};

    ghost from_gives = { λ _ unread. unread ≡ NoMemory };

    fn from(_refused: NoMemory) -> Unread {
        Unread::NoMemory
    }
}

/// Why there is no tree.
#[derive(Clone, Copy, Debug, PartialEq, Eq)]
pub enum ParseFault {
    /// The rules are listed in `specs/Rules.antt`.
    At(Refusal),
    NoMemory,
}

impl From<NoMemory> for ParseFault {
    ghost use Rattle.nim_parse.specs.declared.fault.ParseFault.TheVariants.{NoMemory};

    ghost from_gives = { λ _ fault. fault ≡ NoMemory };

    fn from(_refused: NoMemory) -> ParseFault {
        ParseFault::NoMemory
    }
}
