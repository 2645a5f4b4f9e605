ghost use Rattle.std.specs.Prelude.{◌≡◌, ◌+◌, ◌-◌, ◌^◌, ℕ, Some, min, Contains, IsErr, OnErr, OnOk, ◌↔◌};
ghost use Rattle.std.specs.Io.{ReadsAtMost};
ghost use Rattle.std.specs.Io.KnownBytes.{ReadConsumes};
ghost use Rattle.nim_io.specs.Counts.{Rose, NeverFalls};
ghost use Rattle.std.specs.Io.Cursor.{cursor_inner, cursor_position};

use crate::{Failed, Source};
use std::io::{Cursor, Read};

/// A file of `MemFiles` that was opened. It tells its bytes, and fails at the reads that it was made
/// to fail at.
#[derive(Debug, Drop)]
pub struct MemSource {
    bytes: Cursor<Vec<u8>>,
    fails: Vec<u32>,
    reads: u32,
    faults: u64,
}

impl MemSource {
    ghost use Rattle.nim_io.specs.MemSource.{fails_of, read_count};

    /// A source of these bytes. Each read fails whose number, from 0, stands in `fails`.
    pub(crate) fn new(bytes: Vec<u8>, fails: Vec<u32>) -> MemSource
        ensures bytes { ⟦<MemSource as Source>⟧.left result ≡ Some bytes.items }
        ensures faults { ⟦<MemSource as Source>⟧.faults result ≡ 0 }
        ensures fails { (fails_of result ≡ fails.items) × (read_count result ≡ 0) }
    {
        MemSource {
            bytes: Cursor::new(bytes),
            fails,
            reads: 0,
            faults: 0,
        }
    }

    /// How often it has failed.
    pub(crate) fn faults(&self) -> u64
        ensures { result ≡ ⟦<MemSource as Source>⟧.faults self.now }
    {
        self.faults
    }
}

impl Source for MemSource {
    ghost use Rattle.nim_io.specs.MemSource.{fails_of, read_count};

    ghost left = { λ s. ⟦<Cursor<Vec<u8>> as Read>⟧.remaining s.bytes };

    ghost faults = { λ s. s.faults };

    fn read(&mut self, buf: &mut [u8]) -> Result<usize, Failed>
        ensures bound { ReadsAtMost result buf.new }
        ensures bytes { let rest = ⟦<Cursor<Vec<u8>> as Read>⟧.remaining in
            ReadConsumes (rest self.old.bytes) (rest self.new.bytes) result buf.new }
        ensures cause { OnErr result (Rose self.old.faults self.new.faults) }
        ensures quiet { OnOk result (self.new.faults ≡ self.old.faults) }
        ensures later { NeverFalls self.old.faults self.new.faults }

        // It fails where it is to fail, and nowhere else.
        ensures named { IsErr result ↔ Contains (fails_of self.old) (read_count self.old) }
        ensures kept { fails_of self.new ≡ fails_of self.old }
        ensures counted { read_count self.new ≡ min (read_count self.old + 1) (2 ^ 32 - 1) }
    {
        let call = self.reads;
        self.reads = call.saturating_add(1);
        if self.fails.contains(&call) {
            self.faults = self.faults.saturating_add(1);
            return Err(Failed);
        }
        match self.bytes.read(buf) {
            Ok(n) => Ok(n),
            Err(_) => {
                self.faults = self.faults.saturating_add(1);
                Err(Failed)
            }
        }
    }
}
