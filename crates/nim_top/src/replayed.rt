ghost use Rattle.std.specs.Prelude.{◌≡◌, None as none};
ghost use Rattle.nim_top.specs.Parts.{told_of};

use crate::status::Outcome;

/// How a replay ended, and the summary of its cluster where it is told.
#[derive(Debug, Drop)]
pub struct Replayed {
    pub outcome: Outcome,
    pub summary: Option<Vec<u8>>,
}

impl Replayed {
    /// It ended so, and no summary is told.
    pub fn without_summary(outcome: Outcome) -> Replayed
        ensures { result ≡ record { outcome = outcome; summary = none } }
    {
        Replayed {
            outcome,
            summary: None,
        }
    }

    /// What is told on standard error: the summary, or how it ended.
    pub fn told(&self) -> &[u8]
        ensures { result.now ≡ told_of self.now }
    {
        match &self.summary {
            Some(text) => text.as_slice(),
            None => self.outcome.text().as_bytes(),
        }
    }
}
