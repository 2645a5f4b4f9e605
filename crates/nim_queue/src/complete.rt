ghost use Rattle.std.specs.Prelude.{◌≡◌, ◌==◌, ℕ, if◌then◌else◌, false, nat_eq, None, Some};
ghost use Rattle.std.specs.HashMap.{get};
ghost use Rattle.std.specs.Option.{option_map, option_map_or};
ghost use Rattle.std.specs.VecDeque.{deque_capacity};
ghost use Rattle.nim_queue.specs.Counts.{AreReleased, IsRising, fewer, taken_out, times};
ghost use Rattle.nim_queue.specs.declared.waiting.Waiting.{Waiting as waiting_type};

use crate::tickets::Tickets;
use crate::waiting::Waiting;
use nim_command::Command;
use std::collections::{HashMap, LinkedList};

/// The command of this ticket is complete: it waits no more, and none waits for it. Gives it, if it was waiting.
pub(crate) fn free(
    waiting: &mut HashMap<u64, Waiting>,
    released: &mut Tickets,
    ticket: u64,
) -> Option<Command>
    ensures command { result ≡ option_map (λ (w : waiting_type). w.command) (get nat_eq waiting.old ticket) }
    ensures gone { (w : waiting_type) → get nat_eq waiting.old ticket ≡ Some w → (t : ℕ) → get nat_eq waiting.new t
        ≡ option_map (fewer (times t w.followers)) (if ticket == t then None else get nat_eq waiting.old t) }
    ensures absent { get nat_eq waiting.old ticket ≡ None → (t : ℕ)
        → get nat_eq waiting.new t ≡ get nat_eq waiting.old t }
    ensures released { (n : ℕ) → AreReleased (get nat_eq waiting.old) released.old n
        → AreReleased (get nat_eq waiting.new) released.new n }
{
    match waiting.remove(&ticket) {
        Some(done) => {
            let Waiting {
                group: _,
                command,
                pending,
                followers,
            } = done;
            forget(released, ticket, pending);
            count_down_all(waiting, released, followers);
            Some(command)
        }
        None => None,
    }
}

/// A command that waited for so many was complete.
fn forget(released: &mut Tickets, ticket: u64, pending: u64)
    ensures items { IsRising released.old.items.items
        → released.new.items.items ≡ (if pending == 0 then taken_out ticket released.old.items.items
        else released.old.items.items) }
    ensures capacity { deque_capacity released.new.items ≡ deque_capacity released.old.items }
{
    if pending == 0 {
        released.take(ticket);
    }
}

/// A command that these commands wait for, as often as they stand here, is complete.
fn count_down_all(
    waiting: &mut HashMap<u64, Waiting>,
    released: &mut Tickets,
    followers: LinkedList<u64>,
)
    ensures waiting { (t : ℕ) → get nat_eq waiting.new t
        ≡ option_map (fewer (times t followers)) (get nat_eq waiting.old t) }
    ensures released { (n : ℕ) → AreReleased (get nat_eq waiting.old) released.old n
        → AreReleased (get nat_eq waiting.new) released.new n }
{
    for follower in followers {
        count_down(waiting, released, follower);
    }
}

fn count_down(waiting: &mut HashMap<u64, Waiting>, released: &mut Tickets, ticket: u64)
    ensures waiting { (t : ℕ) → get nat_eq waiting.new t
        ≡ option_map (fewer (if ticket == t then 1 else 0)) (get nat_eq waiting.old t) }
    ensures released { (n : ℕ) → AreReleased (get nat_eq waiting.old) released.old n
        → AreReleased (get nat_eq waiting.new) released.new n }
{
    if has_last(waiting, ticket) {
        released.put(ticket);
    }
}

/// One of the waits of a command is complete, if it is there; whether it was the last.
fn has_last(waiting: &mut HashMap<u64, Waiting>, ticket: u64) -> bool
    ensures waiting { (t : ℕ) → get nat_eq waiting.new t
        ≡ option_map (fewer (if ticket == t then 1 else 0)) (get nat_eq waiting.old t) }
    ensures last { result ≡ option_map_or (λ (w : waiting_type). w.pending == 1) (get nat_eq waiting.old ticket) false }
{
    match waiting.get_mut(&ticket) {
        Some(w) => w.count_down(),
        None => false,
    }
}
