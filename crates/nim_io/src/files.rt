ghost use Rattle.std.specs.Prelude.{◌≡◌, ◌≢◌, ℕ, List, Option, IfOk, IsErrOf, OnOk};
ghost use Rattle.nim_io.specs.Counts.{Rose, NeverFalls};
ghost use Rattle.nim_io.specs.Files.{OpensFile};

use crate::Source;
use nim_base::NoMemory;
use std::alloc::Global;

/// Why a file couldn't be opened.
#[derive(Clone, Copy, Debug, PartialEq, Eq)]
pub enum OpenFault {
    /// The files failed, and have counted it. That a file is missing is such a failure.
    Failed,
    /// Memory was refused.
    NoMemory,
}

impl From<NoMemory> for OpenFault {
    ghost use Rattle.nim_io.specs.declared.files.OpenFault.TheVariants.{NoMemory};

    ghost from_gives = { λ _ fault. fault ≡ NoMemory };

    fn from(_refused: NoMemory) -> OpenFault {
        OpenFault::NoMemory
    }
}

/// Where files are opened by their names.
pub trait Files {
    type Item: Source;

    /// Names with their bytes, where the files tell them. The first of a name counts.
    ghost told: { Self → Option (List (List ℕ × List ℕ)) };

    /// How often the files, or a source that was closed here, have failed.
    ghost faults: { Self → ℕ };

    /// A source of the whole file of this name, with no fault counted yet.
    fn open(&mut self, alloc: Global, name: &str) -> Result<Self::Item, OpenFault>
        ensures bytes { IfOk result (λ item. OpensFile (told self.old) name.now (Self.Item.left item)) }
        ensures fresh { IfOk result (λ item. Self.Item.faults item ≡ 0) }
        ensures cause { IsErrOf result OpenFault.Failed → Rose (faults self.old) (faults self.new) }
        ensures quiet { OnOk result (faults self.new ≡ faults self.old) }
        ensures memory { IsErrOf result OpenFault.NoMemory → faults self.new ≡ faults self.old }
        ensures later { NeverFalls (faults self.old) (faults self.new) }
        ensures same { told self.new ≡ told self.old };

    /// Ends the use of a source. Its faults become a fault of the files.
    fn close(&mut self, item: Self::Item)
        ensures cause { Self.Item.faults item ≢ 0 → Rose (faults self.old) (faults self.new) }
        ensures quiet { Self.Item.faults item ≡ 0 → faults self.new ≡ faults self.old }
        ensures later { NeverFalls (faults self.old) (faults self.new) }
        ensures same { told self.new ≡ told self.old };
}
