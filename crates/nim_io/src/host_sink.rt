ghost use Rattle.std.specs.Prelude.{◌≡◌, ◌<◌, None, length, OnErr, IfOk};
ghost use Rattle.std.specs.Io.{WritesAtMost};
ghost use Rattle.std.specs.Io.KnownBytes.{WriteAppends};
ghost use Rattle.nim_io.specs.Counts.{Rose, NeverFalls};

use crate::{Failed, Sink};
use std::io::Write;
use std::rt::{Stderr, Stdout};

#[derive(Clone, Copy)]
enum Stream {
    Out(Stdout),
    Err(Stderr),
}

/// Standard output or standard error. It tells nothing. Each write is one write of the stream, with
/// no buffer; one that a signal interrupts counts as a fault, as each other error of the system does.
#[derive(Drop)]
pub struct HostSink {
    stream: Stream,
    faults: u64,
}

impl HostSink {
    /// Standard output.
    pub fn out(stdout: Stdout) -> HostSink
        ensures { ⟦<HostSink as Sink>⟧.faults result ≡ 0 }
    {
        HostSink {
            stream: Stream::Out(stdout),
            faults: 0,
        }
    }

    /// Standard error.
    pub fn err(stderr: Stderr) -> HostSink
        ensures { ⟦<HostSink as Sink>⟧.faults result ≡ 0 }
    {
        HostSink {
            stream: Stream::Err(stderr),
            faults: 0,
        }
    }
}

impl Sink for HostSink {
    ghost written = { λ _. None };

    ghost faults = { λ s. s.faults };

    fn write(&mut self, piece: &[u8]) -> Result<usize, Failed> {
        match &mut self.stream {
            Stream::Out(stdout) => write_once(stdout, piece, &mut self.faults),
            Stream::Err(stderr) => write_once(stderr, piece, &mut self.faults),
        }
    }
}

/// One write of a stream. It counts an error, and that nothing was taken of a piece that isn't empty.
fn write_once<W: Write>(stream: &mut W, piece: &[u8], faults: &mut u64) -> Result<usize, Failed>
    ensures bound { WritesAtMost result piece.now }
    ensures bytes { WriteAppends (W.contents stream.old) (W.contents stream.new) result piece.now }
    ensures cause { OnErr result (Rose faults.old faults.new) }
    ensures stuck { IfOk result (λ n. n ≡ 0 → 0 < length piece.now → Rose faults.old faults.new) }
    ensures quiet { IfOk result (λ n. 0 < n → faults.new ≡ faults.old) }
    ensures later { NeverFalls faults.old faults.new }
{
    match stream.write(piece) {
        Ok(n) if n > 0 || piece.is_empty() => Ok(n),
        Ok(n) => {
            *faults = faults.saturating_add(1);
            Ok(n)
        }
        Err(_) => {
            *faults = faults.saturating_add(1);
            Err(Failed)
        }
    }
}
