ghost use Rattle.std.specs.Prelude.{◌≡◌, ℕ, ◌<◌, List, length, Option, OnErr, IfOk};
ghost use Rattle.std.specs.Io.{WritesAtMost};
ghost use Rattle.std.specs.Io.KnownBytes.{WriteAppends};
ghost use Rattle.nim_io.specs.Counts.{Rose, NeverFalls};

use crate::Failed;

/// Something that is written to, at its end.
pub trait Sink {
    /// The bytes written, where the sink tells them.
    ghost written: { Self → Option (List ℕ) };

    /// How often the sink has failed or has taken nothing of a piece that wasn't empty.
    ghost faults: { Self → ℕ };

    /// Writes bytes of the front of `piece`, and answers how many.
    fn write(&mut self, piece: &[u8]) -> Result<usize, Failed>
        ensures bound { WritesAtMost result piece.now }
        // The bytes written grow by what was taken; a failed write leaves them.
        ensures bytes { WriteAppends (written self.old) (written self.new) result piece.now }
        ensures cause { OnErr result (Rose (faults self.old) (faults self.new)) }
        ensures stuck { IfOk result (λ n. n ≡ 0 → 0 < length piece.now → Rose (faults self.old) (faults self.new)) }
        ensures quiet { IfOk result (λ n. 0 < n → faults self.new ≡ faults self.old) }
        ensures later { NeverFalls (faults self.old) (faults self.new) };
}
