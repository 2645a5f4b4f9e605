ghost use Rattle.std.specs.Prelude.{◌≡◌};
ghost use Rattle.nim_reuse.specs.Reuse as spec;

use crate::Ready;
use nim_template::ControllerTemplate;

/// What was decided of a block in an epoch.
#[derive(Drop)]
pub enum Decided {
    /// Nothing.
    Open,
    /// It was recorded while its first instance was scheduled.
    Recorded(ControllerTemplate),
    /// It was built and installed at its second instance.
    Installed(Ready),
}

impl Decided {
    /// Whether its template has to be installed.
    pub(crate) fn is_new(&self) -> bool
        ensures { result ≡ spec.is_new self.now }
    {
        !matches!(self, Decided::Installed(_))
    }
}
