ghost use Rattle.std.specs.Prelude.{◌≡◌};
ghost use Rattle.nim_top.specs.Words.{verb_name};

/// What the first word of a command asks for.
#[derive(Clone, Copy, Debug, PartialEq, Eq)]
pub enum Verb {
    /// Whether a rule refuses a driver or its data.
    Check,
    /// That a driver's job is run.
    Replay,
}

impl Verb {
    /// The first word itself.
    pub fn name(self) -> &'static str
        ensures { result.now ≡ verb_name self }
    {
        match self {
            Verb::Check => "check",
            Verb::Replay => "replay",
        }
    }
}
