ghost use Rattle.std.specs.Prelude.{◌≡◌, ◌+◌, ◌≤◌, ◌<◌, ◌^◌, ◌==◌, ◌∷◌, [], ℕ, List, if◌then◌else◌, length, map, nat_eq, Some};
ghost use Rattle.std.specs.HashMap.{get, spare};
ghost use Rattle.std.specs.Option.{option_map};
ghost use Rattle.std.specs.VecDeque.{deque_capacity, deque_len};
ghost use Rattle.nim_queue.specs.Used.{used_in};
ghost use Rattle.nim_queue.specs.Counts.{IsRising, put_in};
ghost use Rattle.nim_base.specs.declared.number.Slot.{Slot as slot_type};
ghost use Rattle.nim_command.specs.Slots.{is_among};
ghost use Rattle.nim_queue.specs.Arrived.{link_to, reading_of};
ghost use Rattle.nim_queue.specs.Joined.{AreBrief, AreShort, followed, gathered, gathered_reads, more_read, rewritten};

use crate::arrivals::{Link, Reading};
use crate::slot_use::{SlotUse, read_more, rewrite};
use crate::tickets::Tickets;
use crate::waiting::Waiting;
use nim_base::Slot;
use smallvec::SmallVec;
use std::collections::HashMap;

/// Those that a command waits for are followed by it.
pub(crate) fn follow(waiting: &mut HashMap<u64, Waiting>, waits: SmallVec<Link, 1>)
    ensures followers { (k n : ℕ) (d : List ℕ) → AreShort (get nat_eq waiting.old) k → waits.items ≡ map (link_to n) d
        → k + length d < 2 ^ 63
        → (t : ℕ) → get nat_eq waiting.new t ≡ option_map (followed
        (gathered t waits.items)) (get nat_eq waiting.old t) }
    ensures spare { spare waiting.new ≡ spare waiting.old }
{
    for link in waits {
        follow_one(waiting, link);
    }
}

fn follow_one(waiting: &mut HashMap<u64, Waiting>, link: Link)
    ensures followers { (k : ℕ) → AreShort (get nat_eq waiting.old) k → k + length link.later < 2 ^ 63
        → (t : ℕ) → get nat_eq waiting.new t ≡ option_map (followed (if link.earlier == t then link.later else []))
        (get nat_eq waiting.old t) }
    ensures spare { spare waiting.new ≡ spare waiting.old }
{
    let Link { earlier, mut later } = link;
    if let Some(w) = waiting.get_mut(&earlier) {
        let _ = w.followers.append(&mut later);
    }
}

/// A command writes these slots, each of which has a use.
pub(crate) fn write(slots: &mut Vec<Option<SlotUse>>, written: &[Slot], ticket: u64)
    ensures { (s : ℕ) → used_in slots.new.items s
        ≡ (if is_among written.now (record { 0 = s }) then option_map (rewritten ticket) (used_in slots.old.items s)
        else used_in slots.old.items s) }
{
    for slot in written {
        write_one(slots, *slot, ticket);
    }
}

fn write_one(slots: &mut Vec<Option<SlotUse>>, slot: Slot, ticket: u64)
    ensures { (s : ℕ) → used_in slots.new.items s
        ≡ (if slot.0 == s then option_map (rewritten ticket)
        (used_in slots.old.items s) else used_in slots.old.items s) }
{
    let at = usize::from(slot.0);
    if at < slots.len() {
        rewrite(&mut slots[at], ticket);
    }
}

/// It reads these slots, each of which has a use.
pub(crate) fn read(slots: &mut Vec<Option<SlotUse>>, reads: SmallVec<Reading, 1>)
    ensures { (k n : ℕ) (d : List slot_type) → AreBrief (used_in slots.old.items) k → reads.items ≡ map (reading_of n) d
        → k + length d < 2 ^ 63
        → (s : ℕ) → used_in slots.new.items s ≡ option_map (more_read (gathered_reads s reads.items))
        (used_in slots.old.items s) }
{
    for reading in reads {
        read_one(slots, reading);
    }
}

fn read_one(slots: &mut Vec<Option<SlotUse>>, reading: Reading)
    ensures { (k : ℕ) → AreBrief (used_in slots.old.items) k → k + length reading.reader < 2 ^ 63
        → (s : ℕ) → used_in slots.new.items s ≡ option_map
        (more_read (if reading.slot.0 == s then reading.reader else [])) (used_in slots.old.items s) }
{
    let Reading { slot, reader } = reading;
    let at = usize::from(slot.0);
    if at < slots.len() {
        read_more(&mut slots[at], reader);
    }
}

/// A command waits under its ticket from now on, for which there is room.
pub(crate) fn enter(waiting: &mut HashMap<u64, Waiting>, ticket: u64, w: Waiting)
    ensures entered { 0 < spare waiting.old → (t : ℕ)
        → get nat_eq waiting.new t ≡ (if ticket == t then Some w else get nat_eq waiting.old t) }
    ensures spare { spare waiting.old ≤ spare waiting.new + 1 }
{
    let _ = waiting.insert(ticket, w);
}

/// A command that waits for so many is released, if for none, where there is room.
pub(crate) fn offer(released: &mut Tickets, ticket: u64, pending: u64)
    ensures items { IsRising released.old.items.items → deque_len released.old.items < deque_capacity released.old.items
        → released.new.items.items ≡ (if pending == 0 then put_in ticket released.old.items.items
        else released.old.items.items) }
    ensures capacity { deque_capacity released.old.items ≤ deque_capacity released.new.items }
{
    if pending == 0 {
        released.put(ticket);
    }
}
