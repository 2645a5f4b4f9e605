ghost use Rattle.std.specs.Prelude.{◌≡◌, ◌+◌, ◌<◌, ◌^◌, [], None, ℕ, length, nat_eq, OnOk, IfSome};
ghost use Rattle.std.specs.HashMap.{get};
ghost use Rattle.std.specs.Option.{option_copied, option_map};
ghost use Rattle.nim_queue.specs.Joined.{more_read, rewritten, use_at};
ghost use Rattle.nim_queue.specs.Used.{used_in};
ghost use Rattle.nim_queue.specs.declared.slot_use.SlotUse.{SlotUse as slot_use_type};

use crate::room::drop_front;
use crate::waiting::Waiting;
use nim_base::{NoMemory, Slot};
use std::alloc::Global;
use std::collections::{HashMap, LinkedList};

/// Who uses a slot: the ticket of the last command that writes it, where that one may wait, and those of the commands
/// since then that read it. Some of them may be complete.
#[derive(Drop)]
pub(crate) struct SlotUse {
    pub(crate) writer: Option<u64>,
    pub(crate) readers: LinkedList<u64>,
}

impl SlotUse {
    /// Nobody uses it.
    pub(crate) fn new(alloc: Global) -> SlotUse
        ensures { result ≡ record { writer = None; readers = [] } }
    {
        SlotUse {
            writer: None,
            readers: LinkedList::new(alloc),
        }
    }
}

/// Who uses a slot, of the list of all slots.
pub(crate) fn use_of(slots: &[Option<SlotUse>], slot: Slot) -> Option<&SlotUse>
    ensures { option_copied result ≡ used_in slots.now slot.0 }
{
    match slots.get(usize::from(slot.0)) {
        Some(used) => used.as_ref(),
        None => None,
    }
}

/// A slot has a place in the list from now on; places that are new have no use.
pub(crate) fn reach(slots: &mut Vec<Option<SlotUse>>, slot: Slot) -> Result<(), NoMemory>
    ensures uses { (s : ℕ) → used_in slots.new.items s ≡ used_in slots.old.items s }
    ensures there { OnOk result (slot.0 < length slots.new.items) }
{
    let count = usize::from(slot.0) + 1;
    if slots.len() < count {
        slots.resize_with(count, || None)?;
    }
    Ok(())
}

/// A slot is to be used: the readers in front that don't wait any more leave.
pub(crate) fn settle(alloc: Global, waiting: &HashMap<u64, Waiting>, used: &mut Option<SlotUse>)
    ensures { used.new ≡ use_at (get nat_eq waiting.now) used.old }
{
    match used {
        Some(one) => drop_front(waiting, &mut one.readers),
        None => *used = Some(SlotUse::new(alloc)),
    }
}

/// A slot, if it has a use, is written.
pub(crate) fn rewrite(used: &mut Option<SlotUse>, ticket: u64)
    ensures { used.new ≡ option_map (rewritten ticket) used.old }
{
    if let Some(one) = used {
        one.writer = Some(ticket);
        one.readers.clear();
    }
}

/// A slot, if it has a use, is read by one more.
pub(crate) fn read_more(used: &mut Option<SlotUse>, mut reader: LinkedList<u64>)
    ensures { IfSome used.old (λ (u : slot_use_type). length u.readers + length reader < 2 ^ 63)
        → used.new ≡ option_map (more_read reader) used.old }
{
    if let Some(one) = used {
        let _ = one.readers.append(&mut reader);
    }
}
