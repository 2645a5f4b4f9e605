ghost use Rattle.std.specs.Prelude.{◌≡◌, IfOk};
ghost use Rattle.nim_command.specs.Slots as spec;
ghost use Rattle.nim_command.specs.Slots.{reads_of, writes_of};

use crate::numbers::SLOTS;
use crate::{Command, Kind};
use nim_base::{NoMemory, Object, Slot};
use std::alloc::Global;
use std::slice;

/// The object that a slot is of.
pub fn object_of(slot: Slot) -> Object
    ensures { result ≡ spec.object_of slot }
{
    Object(slot.0 % SLOTS)
}

/// The slots that a command reads, in order.
pub fn reads(alloc: Global, command: &Command) -> Result<Vec<Slot>, NoMemory>
    ensures { IfOk result (λ slots. slots.items ≡ reads_of command.now.kind) }
{
    Ok(Vec::from_slice(alloc, command.kind.reads())?)
}

/// The slots that a command writes, in order.
pub fn writes(alloc: Global, command: &Command) -> Result<Vec<Slot>, NoMemory>
    ensures { IfOk result (λ slots. slots.items ≡ writes_of command.now.kind) }
{
    Ok(Vec::from_slice(alloc, command.kind.writes())?)
}

impl Kind {
    /// The slots that a command of this kind reads, in order; takes no memory.
    pub fn reads(&self) -> &[Slot]
        ensures { result.now ≡ reads_of self.now }
    {
        match self {
            Kind::Send { slot, .. } | Kind::Fetch { slot, .. } => slice::from_ref(slot),
            Kind::Copy { from, .. } => slice::from_ref(from),
            Kind::Run { reads, .. } => reads.as_slice(),
            Kind::Create { .. } | Kind::Load { .. } | Kind::Receive { .. } => &[],
        }
    }

    /// The slots that a command of this kind writes, in order; takes no memory.
    pub fn writes(&self) -> &[Slot]
        ensures { result.now ≡ writes_of self.now }
    {
        match self {
            Kind::Create { slot, .. } | Kind::Load { slot, .. } | Kind::Receive { slot, .. } => {
                slice::from_ref(slot)
            }
            Kind::Copy { to, .. } => slice::from_ref(to),
            Kind::Run { writes, .. } => writes.as_slice(),
            Kind::Send { .. } | Kind::Fetch { .. } => &[],
        }
    }
}
