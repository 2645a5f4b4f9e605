ghost use Rattle.std.specs.Prelude.{◌≡◌};
ghost use Rattle.nim_top.specs.Parts.{of_read, of_schedule};

use crate::status::InputFile;
use nim_check::{Input, ReadFault};
use nim_lex::Refusal;
use nim_schedule::ScheduleFault;

/// Why the files of a command give no plan.
#[derive(Clone, Copy, Debug, PartialEq, Eq)]
pub enum InputFault {
    /// A rule refuses a line of this file.
    At { file: InputFile, refusal: Refusal },
    /// Memory was refused.
    NoMemory,
}

impl From<ReadFault> for InputFault {
    ghost from_gives = { λ fault made. made ≡ of_read fault };

    fn from(fault: ReadFault) -> InputFault {
        match fault {
            ReadFault::At { input, refusal } => InputFault::At {
                file: match input {
                    Input::Driver => InputFile::Driver,
                    Input::Data => InputFile::Data,
                },
                refusal,
            },
            ReadFault::NoMemory => InputFault::NoMemory,
        }
    }
}

impl From<ScheduleFault> for InputFault {
    ghost from_gives = { λ fault made. made ≡ of_schedule fault };

    fn from(fault: ScheduleFault) -> InputFault {
        match fault {
            ScheduleFault::Refused(refusal) => InputFault::At {
                file: InputFile::Schedule,
                refusal,
            },
            ScheduleFault::NoMemory => InputFault::NoMemory,
        }
    }
}
