ghost use Rattle.std.specs.Prelude.{◌≡◌, ◌<◌, ◌≤◌, [], true, IfSome, OnOk, nat_lt};
ghost use Rattle.std.specs.VecDeque.{deque_capacity, deque_len};
ghost use Rattle.nim_queue.specs.Counts.{IsRising, put_in, taken_out};
ghost use Rattle.nim_queue.specs.Stands.{first_to_pass, is_after};

use nim_base::NoMemory;
use std::alloc::Global;
use std::collections::VecDeque;

/// Tickets that rise.
#[derive(Drop)]
pub(crate) struct Tickets {
    items: VecDeque<u64>,
}

impl Tickets {
    /// None; takes no memory.
    pub(crate) fn new(alloc: Global) -> Tickets
        ensures { result.items.items ≡ [] }
    {
        Tickets {
            items: VecDeque::new(alloc),
        }
    }

    /// Room for so many in all.
    pub(crate) fn make_room(&mut self, count: usize) -> Result<(), NoMemory>
        ensures items { self.new.items.items ≡ self.old.items.items }
        ensures room { OnOk result (count ≤ deque_capacity self.new.items) }
        ensures capacity { deque_capacity self.old.items ≤ deque_capacity self.new.items }
    {
        let more = count.saturating_sub(self.items.len());
        self.items.reserve(more)?;
        Ok(())
    }

    /// One more, at its place, where there is room.
    pub(crate) fn put(&mut self, ticket: u64)
        ensures items { IsRising self.old.items.items → deque_len self.old.items < deque_capacity self.old.items
            → self.new.items.items ≡ put_in ticket self.old.items.items }
        ensures capacity { deque_capacity self.old.items ≤ deque_capacity self.new.items }
    {
        let index = self.items.partition_point(|other| *other < ticket);
        let _ = self.items.insert(index, ticket);
    }

    /// One fewer: the first that isn't below this one.
    pub(crate) fn take(&mut self, ticket: u64)
        ensures items { IsRising self.old.items.items → self.new.items.items ≡ taken_out ticket self.old.items.items }
        ensures capacity { deque_capacity self.new.items ≡ deque_capacity self.old.items }
    {
        let index = self.items.partition_point(|other| *other < ticket);
        let _ = self.items.remove(index);
    }

    /// The first after the given one, the first of all where none is given.
    pub(crate) fn after(&self, after: Option<u64>) -> Option<u64>
        ensures first { IsRising self.now.items.items → result ≡ first_to_pass (is_after after) self.now.items.items }
        ensures later { IfSome result (λ ticket. is_after after ticket ≡ true) }
    {
        match after {
            None => self.items.front().copied(),
            Some(after) => self.past(after),
        }
    }

    /// The first after this one.
    fn past(&self, after: u64) -> Option<u64>
        ensures first { IsRising self.now.items.items → result ≡ first_to_pass (nat_lt after) self.now.items.items }
        ensures later { IfSome result (λ ticket. nat_lt after ticket ≡ true) }
    {
        let index = self.items.partition_point(|ticket| *ticket <= after);
        only_past(self.items.get(index).copied(), after)
    }
}

/// A ticket, if it comes after this one.
fn only_past(ticket: Option<u64>, after: u64) -> Option<u64>
    ensures same { IfSome ticket (λ ticket. nat_lt after ticket ≡ true) → result ≡ ticket }
    ensures later { IfSome result (λ ticket. nat_lt after ticket ≡ true) }
{
    match ticket {
        Some(ticket) => { if after < ticket { Some(ticket) } else { None } }
        None => None,
    }
}
