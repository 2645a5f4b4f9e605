ghost use Rattle.std.specs.Prelude.{◌≡◌};
ghost use Rattle.nim_top.specs.Answer.{has_run, status_of, status_text, error_text};

/// How a command ended: the status that the program ends with.
#[derive(Clone, Copy, Debug, PartialEq, Eq)]
pub struct Status(pub u8);

impl Status {
    /// What the command asks for is done.
    pub const DONE: Status = Status(0);
    /// The words aren't a command.
    pub const WORDS: Status = Status(1);
    /// A file is refused.
    pub const REFUSED: Status = Status(2);
    /// Memory was refused.
    pub const MEMORY: Status = Status(3);
    /// The job passes its limits.
    pub const LIMIT: Status = Status(4);
    /// A file couldn't be read.
    pub const READ: Status = Status(6);
    /// The output couldn't be written.
    pub const WRITE: Status = Status(7);
    /// No event may come next, and the job hasn't ended.
    pub const STALLED: Status = Status(9);

    /// What is told on standard error, a line; nothing where all is done, nor of a refusal, whose line names the place.
    pub fn text(self) -> &'static str
        ensures { result.now ≡ status_text self.0 }
    {
        match self.0 {
            1 => "nimbus: words refused\n",
            3 => "nimbus: memory\n",
            4 => "nimbus: limit\n",
            6 => "nimbus: read fault\n",
            7 => "nimbus: write fault\n",
            9 => "nimbus: stalled\n",
            _ => "",
        }
    }
}

/// One of the files that a command reads.
#[derive(Clone, Copy, Debug, PartialEq, Eq)]
pub enum InputFile {
    Driver,
    Data,
    Schedule,
}

/// How a command ended, with all that is told of it. When each comes is `Ends` of `specs/Answer.antt`.
#[derive(Debug, Drop)]
pub enum Outcome {
    /// What the command asks for is done.
    Done,
    /// The words aren't the command's.
    Words,
    /// A file is refused, as this line says.
    Refused(String),
    /// Memory was refused.
    Memory,
    /// The job passes its limits.
    Limit,
    /// A file couldn't be read.
    Read,
    /// The output couldn't be written.
    Write,
    /// No event may come next, and the job hasn't ended.
    Stalled,
}

impl Outcome {
    /// The status that the program ends with.
    pub fn status(&self) -> Status
        ensures { result.0 ≡ status_of self.now }
    {
        match self {
            Outcome::Done => Status::DONE,
            Outcome::Words => Status::WORDS,
            Outcome::Refused(_) => Status::REFUSED,
            Outcome::Memory => Status::MEMORY,
            Outcome::Limit => Status::LIMIT,
            Outcome::Read => Status::READ,
            Outcome::Write => Status::WRITE,
            Outcome::Stalled => Status::STALLED,
        }
    }

    /// Whether a job was run, whose cluster is kept.
    pub fn has_run(&self) -> bool
        ensures { result ≡ has_run (status_of self.now) }
    {
        match self {
            Outcome::Done | Outcome::Limit | Outcome::Write | Outcome::Stalled => true,
            Outcome::Words | Outcome::Refused(_) | Outcome::Memory | Outcome::Read => false,
        }
    }

    /// What is told on standard error.
    pub fn text(&self) -> &str
        ensures { result.now ≡ error_text self.now }
    {
        match self {
            Outcome::Refused(line) => line.as_str(),
            other => other.status().text(),
        }
    }
}
