ghost use Rattle.std.specs.Prelude.{◌≡◌, ◌+◌, ◌-◌, ◌^◌, ◌<◌, [], Some, min, length, Contains, IfOk, IsErr, OnErr};
ghost use Rattle.std.specs.Io.{WritesAtMost};
ghost use Rattle.std.specs.Io.KnownBytes.{WriteAppends};
ghost use Rattle.nim_io.specs.Counts.{Rose, NeverFalls};

use crate::{Failed, Sink};
use std::alloc::Global;

/// A sink in memory. It tells its bytes, takes so many bytes a call at most, and fails at the calls
/// that it was made to fail at. A write for which there is no memory takes nothing and fails.
#[derive(Debug, Drop)]
pub struct MemSink {
    bytes: Vec<u8>,
    most: usize,
    fails: Vec<u32>,
    writes: u32,
    faults: u64,
}

impl MemSink {
    ghost use Rattle.nim_io.specs.MemSink.{most_of, fails_of, write_count};

    /// An empty sink that takes at most `most` bytes a call. Each write fails whose number, from 0,
    /// stands in `fails`.
    pub fn new(alloc: Global, most: usize, fails: Vec<u32>) -> MemSink
        ensures empty { ⟦<MemSink as Sink>⟧.written result ≡ Some [] }
        ensures faults { ⟦<MemSink as Sink>⟧.faults result ≡ 0 }
        ensures limit { most_of result ≡ most }
        ensures fails { (fails_of result ≡ fails.items) × (write_count result ≡ 0) }
    {
        MemSink {
            bytes: Vec::new(alloc),
            most,
            fails,
            writes: 0,
            faults: 0,
        }
    }

    /// What was written.
    pub fn bytes(&self) -> &[u8]
        ensures { ⟦<MemSink as Sink>⟧.written self.now ≡ Some result.now }
    {
        self.bytes.as_slice()
    }
}

impl Sink for MemSink {
    ghost use Rattle.nim_io.specs.MemSink.{most_of, fails_of, write_count};

    ghost written = { λ s. Some s.bytes.items };

    ghost faults = { λ s. s.faults };

    fn write(&mut self, piece: &[u8]) -> Result<usize, Failed>
        ensures bound { WritesAtMost result piece.now }
        ensures bytes { WriteAppends (Some self.old.bytes.items) (Some self.new.bytes.items) result piece.now }
        ensures cause { OnErr result (Rose self.old.faults self.new.faults) }
        ensures stuck { IfOk result (λ n. n ≡ 0 → 0 < length piece.now → Rose self.old.faults self.new.faults) }
        ensures quiet { IfOk result (λ n. 0 < n → self.new.faults ≡ self.old.faults) }
        ensures later { NeverFalls self.old.faults self.new.faults }

        // It takes as much as it may, and fails where it is to fail.
        ensures taken { IfOk result (λ n. n ≡ min (length piece.now) (most_of self.old)) }
        ensures named { Contains (fails_of self.old) (write_count self.old) → IsErr result }
        ensures kept { (most_of self.new ≡ most_of self.old) × (fails_of self.new ≡ fails_of self.old) }
        ensures counted { write_count self.new ≡ min (write_count self.old + 1) (2 ^ 32 - 1) }
    {
        let call = self.writes;
        self.writes = call.saturating_add(1);
        if self.fails.contains(&call) {
            self.faults = self.faults.saturating_add(1);
            return Err(Failed);
        }
        let n = piece.len().min(self.most);
        if self.bytes.extend_from_slice(&piece[..n]).is_err() {
            self.faults = self.faults.saturating_add(1);
            return Err(Failed);
        }
        if n == 0 && !piece.is_empty() {
            self.faults = self.faults.saturating_add(1);
        }
        Ok(n)
    }
}
