ghost use Rattle.std.specs.Prelude.{◌≡◌};
ghost use Rattle.nim_command.specs.Slots as spec;

use nim_base::{Copied, Func, NoMemory, Param, Short, Slot, Worker};
use std::slice;

/// What an entry of a half does with the slots of its worker, once its block is instantiated. The command that it
/// stands for then is `kind_for` of `specs/Expansion.antt`.
#[derive(Debug, Drop)]
pub enum EntryKind {
    /// Sends what a slot has to the entry of another worker.
    Send {
        slot: Slot,
        peer: Worker,
        entry: u32,
    },
    /// Takes what another worker sends: the version that the block began with, or with offset `j + 1` what its task
    /// `j` writes.
    Receive {
        slot: Slot,
        offset: u16,
    },
    /// Puts what a slot has into another one.
    Copy {
        from: Slot,
        to: Slot,
    },
    /// Runs a task of the block.
    Run {
        func: Func,
        params: Short<Param, 3>,
        reads: Short<Slot, 8>,
        writes: Short<Slot, 2>,
    },
}

/// A command of a block whose arguments aren't put in yet, by its number, and the numbers of the earlier entries that
/// it waits for.
#[derive(Debug, Drop)]
pub struct Entry {
    pub id: u32,
    pub kind: EntryKind,
    pub before: Short<u32, 8>,
}

impl EntryKind {
    /// The slots that an entry of this kind reads, in order; takes no memory.
    pub fn reads(&self) -> &[Slot]
        ensures { result.now ≡ spec.entry_reads self.now }
    {
        match self {
            EntryKind::Send { slot, .. } => slice::from_ref(slot),
            EntryKind::Copy { from, .. } => slice::from_ref(from),
            EntryKind::Run { reads, .. } => reads.as_slice(),
            EntryKind::Receive { .. } => &[],
        }
    }

    /// The slots that an entry of this kind writes, in order; takes no memory.
    pub fn writes(&self) -> &[Slot]
        ensures { result.now ≡ spec.entry_writes self.now }
    {
        match self {
            EntryKind::Receive { slot, .. } => slice::from_ref(slot),
            EntryKind::Copy { to, .. } => slice::from_ref(to),
            EntryKind::Run { writes, .. } => writes.as_slice(),
            EntryKind::Send { .. } => &[],
        }
    }
}

impl Copied for EntryKind {
    fn copy(&self) -> Result<EntryKind, NoMemory> {
        Ok(match self {
            EntryKind::Send { slot, peer, entry } => EntryKind::Send {
                slot: *slot,
                peer: *peer,
                entry: *entry,
            },
            EntryKind::Receive { slot, offset } => EntryKind::Receive {
                slot: *slot,
                offset: *offset,
            },
            EntryKind::Copy { from, to } => EntryKind::Copy {
                from: *from,
                to: *to,
            },
            EntryKind::Run {
                func,
                params,
                reads,
                writes,
            } => EntryKind::Run {
                func: *func,
                params: params.copy()?,
                reads: reads.copy()?,
                writes: writes.copy()?,
            },
        })
    }
}

impl Copied for Entry {
    fn copy(&self) -> Result<Entry, NoMemory> {
        Ok(Entry {
            id: self.id,
            kind: self.kind.copy()?,
            before: self.before.copy()?,
        })
    }
}
