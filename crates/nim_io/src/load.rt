ghost use Rattle.std.specs.Prelude.{◌≡◌, ℕ, ◌<◌, ◌≤◌, length, false, IfOk, IfSome, IsErrOf};
ghost use Rattle.nim_io.specs.Counts.{Rose, NeverFalls};
ghost use Rattle.nim_io.specs.Files.{content, TellsBytes, TellsSome};
ghost use Rattle.nim_io.specs.Load.{Loads, is_fault};

use crate::{Files, OpenFault, Source};
use std::alloc::{AllocError, Global};

/// How many bytes are asked for at once.
const PIECE: usize = 16_384;

/// Why a file couldn't be loaded.
#[derive(Clone, Copy, Debug, PartialEq, Eq)]
pub enum LoadFault {
    /// It couldn't be opened, and the files have counted it.
    Open,
    /// A read failed, and the files have counted it.
    Read,
    /// It has more bytes than are wanted.
    TooLong,
    /// Memory was refused.
    NoMemory,
}

impl From<AllocError> for LoadFault {
    ghost use Rattle.nim_io.specs.declared.load.LoadFault.TheVariants.{NoMemory};

    ghost from_gives = { λ _ fault. fault ≡ NoMemory };

    fn from(_refused: AllocError) -> LoadFault {
        LoadFault::NoMemory
    }
}

/// The whole content of the file of this name, of at most `most` bytes. The file is closed again,
/// and no byte is read past the one that makes it too long. Which bytes files tell for a name is
/// `content` of `specs/Files.antt`, and what may be answered where nothing failed `Loads` of
/// `specs/Load.antt`.
pub fn read_all<L: Files>(
    alloc: Global,
    files: &mut L,
    name: &str,
    most: usize,
) -> Result<Vec<u8>, LoadFault>
    ensures bytes { IfOk result (λ bytes. TellsBytes (L.told files.old) name.now bytes.items) }
    ensures fits { IfOk result (λ bytes. length bytes.items ≤ most) }

    ensures open_fault { IsErrOf result LoadFault.Open → Rose (L.faults files.old) (L.faults files.new) }
    ensures read_fault { IsErrOf result LoadFault.Read → Rose (L.faults files.old) (L.faults files.new) }
    ensures too_long { IsErrOf result LoadFault.TooLong
        → TellsSome (L.told files.old) name.now (λ bytes. most < length bytes) }

    // Where no fault came, the told files decide the answer, but for memory.
    ensures complete { ¬ Rose (L.faults files.old) (L.faults files.new)
        → IfSome (L.told files.old) (λ told. Loads (content name.now told) most result) }

    // A count rises only for a fault that is told: want of memory hides none.
    ensures quiet { is_fault result ≡ false → L.faults files.new ≡ L.faults files.old }
    ensures later { NeverFalls (L.faults files.old) (L.faults files.new) }
    ensures same { L.told files.new ≡ L.told files.old }
{
    let mut item = match files.open(alloc, name) {
        Ok(item) => item,
        Err(OpenFault::Failed) => return Err(LoadFault::Open),
        Err(OpenFault::NoMemory) => return Err(LoadFault::NoMemory),
    };
    let all = drain(alloc, &mut item, most);
    files.close(item);
    all
}

/// All that is left of a source.
fn drain<S: Source>(alloc: Global, source: &mut S, most: usize) -> Result<Vec<u8>, LoadFault>
    ensures bytes { IfOk result (λ bytes. IfSome (S.left source.old) (λ left. left ≡ bytes.items)) }
    ensures fits { IfOk result (λ bytes. length bytes.items ≤ most) }
    ensures open_fault { IsErrOf result LoadFault.Open → ⊥ }
    ensures read_fault { IsErrOf result LoadFault.Read → Rose (S.faults source.old) (S.faults source.new) }
    ensures too_long { IsErrOf result LoadFault.TooLong → IfSome (S.left source.old) (λ left. most < length left) }
    ensures quiet { is_fault result ≡ false → S.faults source.new ≡ S.faults source.old }
    ensures later { NeverFalls (S.faults source.old) (S.faults source.new) }
{
    let mut all = Vec::new(alloc);
    let mut piece = [0u8; PIECE];
    while all.len() <= most {
        let room = PIECE.min((most - all.len()).saturating_add(1));
        let Ok(n) = source.read(&mut piece[..room]) else {
            return Err(LoadFault::Read);
        };
        if n == 0 {
            return Ok(all);
        }
        all.extend_from_slice(&piece[..n])?;
    }
    Err(LoadFault::TooLong)
}
