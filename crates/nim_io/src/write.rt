ghost use Rattle.std.specs.Prelude.{◌≡◌, OnErr, OnOk};
ghost use Rattle.std.specs.Io.KnownBytes.{Appends};
ghost use Rattle.nim_io.specs.Counts.{Rose, NeverFalls};
ghost use Rattle.nim_io.specs.Sink.{AppendsFront};

use crate::Sink;

/// The bytes couldn't all be written, and the sink has counted a fault.
#[derive(Clone, Copy, Debug, PartialEq, Eq)]
pub struct WriteFault;

/// Writes all the bytes. After a fault the first few of them are written. Takes no memory.
#[tactic(auto, using(crate::proofs::Writes::appends_more))]
pub fn write_all<K: Sink>(sink: &mut K, bytes: &[u8]) -> Result<(), WriteFault>
    ensures ok { OnOk result (Appends (K.written sink.old) (K.written sink.new) bytes.now) }
    ensures prefix { OnErr result (AppendsFront (K.written sink.old) (K.written sink.new) bytes.now) }
    ensures cause { OnErr result (Rose (K.faults sink.old) (K.faults sink.new)) }
    ensures quiet { OnOk result (K.faults sink.new ≡ K.faults sink.old) }
    ensures later { NeverFalls (K.faults sink.old) (K.faults sink.new) }
{
    let mut at = 0;
    while at < bytes.len() {
        match sink.write(&bytes[at..]) {
            Ok(0) | Err(_) => return Err(WriteFault),
            Ok(n) => at += n,
        }
    }
    Ok(())
}
