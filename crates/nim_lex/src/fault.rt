ghost use Rattle.std.specs.Prelude.{◌≡◌};
ghost use Rattle.nim_lex.specs.declared.fault.LexFault.TheVariants.{NoMemory};

use nim_base::NoMemory;

/// A line that a rule refuses, and the rule's number. Lines count from 1; line 0 is the file as a whole, and where
/// something is missing at the end of a file, it is the line behind the last.
#[derive(Clone, Copy, Debug, PartialEq, Eq)]
pub struct Refusal {
    pub line: u32,
    pub rule: u8,
}

/// Why there are no tokens.
#[derive(Clone, Copy, Debug, PartialEq, Eq)]
pub enum LexFault {
    /// The rules are listed in `specs/Rules.antt`.
    At(Refusal),
    NoMemory,
}

impl From<NoMemory> for LexFault {
    ghost from_gives = { λ _ fault. fault ≡ NoMemory };

    fn from(_refused: NoMemory) -> LexFault {
        LexFault::NoMemory
    }
}
