ghost use Rattle.std.specs.Prelude.{◌≡◌, ◌≢◌, ◌==◌, ◌+◌, ◌<◌, ◌^◌, ℕ, false, true, drop, if◌then◌else◌, is_some, length, nat_eq, IfOk, OnErr, OnOk};
ghost use Rattle.std.specs.HashMap.{get};
ghost use Rattle.std.specs.List.{list_all};
ghost use Rattle.nim_base.specs.declared.number.Slot.{Slot as slot_type};
ghost use Rattle.nim_queue.specs.Used.{used_in};
ghost use Rattle.nim_queue.specs.Joined.{HaveSameUses, are_covered, link_count, use_at, without_front};

use crate::arrivals::Arrival;
use crate::slot_use::{SlotUse, reach, settle};
use crate::waiting::Waiting;
use nim_base::{NoMemory, Slot};
use std::alloc::Global;
use std::collections::{HashMap, LinkedList};

/// No list of followers or readers can be longer than this.
const MOST: u64 = 1 << 62;

/// Gives each slot that the commands use a use, and lets readers in front of others leave it that don't wait any more.
pub(crate) fn cover_all(
    alloc: Global,
    waiting: &HashMap<u64, Waiting>,
    slots: &mut Vec<Option<SlotUse>>,
    arrived: &[Arrival],
) -> Result<(), NoMemory>
    ensures same { HaveSameUses (get nat_eq waiting.now) (used_in slots.old.items) (used_in slots.new.items) }
    ensures covered { OnOk result (list_all (are_covered (used_in slots.new.items)) arrived.now ≡ true) }
{
    for arrival in arrived {
        cover_arrival(alloc, waiting, slots, arrival)?;
    }
    Ok(())
}

fn cover_arrival(
    alloc: Global,
    waiting: &HashMap<u64, Waiting>,
    slots: &mut Vec<Option<SlotUse>>,
    arrival: &Arrival,
) -> Result<(), NoMemory>
    ensures same { HaveSameUses (get nat_eq waiting.now) (used_in slots.old.items) (used_in slots.new.items) }
    ensures covered { OnOk result (are_covered (used_in slots.new.items) arrival.now ≡ true) }
{
    cover(alloc, waiting, slots, arrival.command.kind.reads())?;
    cover(alloc, waiting, slots, arrival.command.kind.writes())?;
    Ok(())
}

fn cover(
    alloc: Global,
    waiting: &HashMap<u64, Waiting>,
    slots: &mut Vec<Option<SlotUse>>,
    used: &[Slot],
) -> Result<(), NoMemory>
    ensures same { HaveSameUses (get nat_eq waiting.now) (used_in slots.old.items) (used_in slots.new.items) }
    ensures covered { OnOk result (list_all (λ (slot : slot_type). is_some (used_in slots.new.items slot.0)) used.now
        ≡ true) }
{
    for slot in used {
        cover_one(alloc, waiting, slots, *slot)?;
    }
    Ok(())
}

fn cover_one(
    alloc: Global,
    waiting: &HashMap<u64, Waiting>,
    slots: &mut Vec<Option<SlotUse>>,
    slot: Slot,
) -> Result<(), NoMemory>
    ensures uses { OnOk result ((s : ℕ) → used_in slots.new.items s
        ≡ (if slot.0 == s then use_at (get nat_eq waiting.now) (used_in slots.old.items s)
        else used_in slots.old.items s)) }
    ensures err { OnErr result ((s : ℕ) → used_in slots.new.items s ≡ used_in slots.old.items s) }
{
    reach(slots, slot)?;
    settle(alloc, waiting, &mut slots[usize::from(slot.0)]);
    Ok(())
}

/// The readers of a slot in front that don't wait any more leave.
pub(crate) fn drop_front(waiting: &HashMap<u64, Waiting>, readers: &mut LinkedList<u64>)
    ensures { readers.new ≡ without_front (get nat_eq waiting.now) readers.old }
{
    while is_past(waiting, readers) {
        let _ = readers.pop_front();
    }
}

/// Whether there is a first reader that doesn't wait.
fn is_past(waiting: &HashMap<u64, Waiting>, readers: &LinkedList<u64>) -> bool
    ensures past { result ≡ true → (length readers.now ≢ 0)
        × (without_front (get nat_eq waiting.now) readers.now
        ≡ without_front (get nat_eq waiting.now) (drop 1 readers.now)) }
    ensures kept { result ≡ false → without_front (get nat_eq waiting.now) readers.now ≡ readers.now }
{
    match readers.front() {
        Some(first) => !waiting.contains_key(first),
        None => false,
    }
}

/// How long lists of followers or readers may be at most with these.
pub(crate) fn count_all(links: u64, arrived: &[Arrival]) -> Result<u64, NoMemory>
    ensures count { IfOk result (λ count. count ≡ links + link_count arrived.now) }
    ensures few { IfOk result (λ count. count < 2 ^ 62) }
{
    if links >= MOST {
        return Err(NoMemory);
    }
    let mut count = links;
    for arrival in arrived {
        count = count_one(count, arrival)?;
    }
    Ok(count)
}

/// The same with one more.
pub(crate) fn count_one(links: u64, arrival: &Arrival) -> Result<u64, NoMemory>
    ensures count { IfOk result (λ count. count ≡ links +
        (length arrival.now.waits.items + length arrival.now.reads.items)) }
    ensures few { IfOk result (λ count. count < 2 ^ 62) }
{
    let more = (arrival.waits.len() as u64).saturating_add(arrival.reads.len() as u64);
    let count = links.saturating_add(more);
    if count < MOST {
        Ok(count)
    } else {
        Err(NoMemory)
    }
}
