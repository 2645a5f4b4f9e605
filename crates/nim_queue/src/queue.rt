ghost use Rattle.std.specs.Prelude.{◌≡◌, ℕ, ◌+◌, ◌≤◌, ◌<◌, ◌^◌, ◌++◌, ◌∷◌, [], Bool, true, List, length, map, nat_eq, ◌==◌, if◌then◌else◌, Some, IfSome, OnOk, OnErr};
ghost use Rattle.std.specs.Option.{option_copied};
ghost use Rattle.nim_command.specs.Waits.{Group as group_type, placed_commands};
ghost use Rattle.std.specs.HashMap.{get, spare};
ghost use Rattle.std.specs.VecDeque.{deque_capacity, deque_len};
ghost use Rattle.std.specs.Option.{option_map};
ghost use Rattle.nim_base.specs.declared.number.Slot.{Slot as slot_type};
ghost use Rattle.nim_command.specs.Slots.{is_among, writes_of};
ghost use Rattle.nim_queue.specs.Used.{used_in};
ghost use Rattle.nim_queue.specs.Arrived.{HaveArrived, link_to, reading_of};
ghost use Rattle.nim_queue.specs.Counts.{IsRising, put_in};
ghost use Rattle.nim_queue.specs.Joined.{AreBrief, AreShort, link_count, followed, gathered, gathered_reads, kept_new, more_read, rewritten};
ghost use Rattle.nim_queue.specs.Midway.{HasRoomForArrived, IsMidway};
ghost use Rattle.nim_order.specs.Progress.{IsReleasedAt};
ghost use Rattle.nim_queue.specs.Stands.{KeepsGroups, StandsForGroups, outstanding_command, done_with, outstanding_group, is_after, nothing_done, ready_of};

use crate::arrivals::{Arrival, Arrivals, arrive_all};
use crate::complete::free;
use crate::join::{enter, follow, offer, read, write};
use crate::look::{command_at, group_at};
use crate::room::{count_all, count_one, cover_all};
use crate::slot_use::SlotUse;
use crate::tickets::Tickets;
use crate::waiting::Waiting;
use nim_base::NoMemory;
use nim_command::Command;
use std::alloc::Global;
use std::collections::{HashMap, LinkedList};
use std::slice;

/// Commands that wait for others: those of their group that their before sets name, and those of earlier groups that
/// they meet in a slot. The ticket of a command is its place in the order given. Which groups a queue stands for,
/// and which of their commands are complete, is `StandsForGroups` of `specs/Stands.antt`.
#[derive(Drop)]
pub struct BeforeQueue {
    pub(crate) alloc: Global,
    /// The commands that aren't complete, by ticket.
    pub(crate) waiting: HashMap<u64, Waiting>,
    /// Who uses a slot, by the slots' numbers.
    pub(crate) slots: Vec<Option<SlotUse>>,
    /// Those that wait for nothing.
    pub(crate) released: Tickets,
    /// No list of followers or readers is longer.
    links: u64,
    /// How many commands and groups were given.
    pub(crate) given: u64,
    groups: u64,
}

impl BeforeQueue {
    /// Was given no command; takes no memory.
    pub fn new(alloc: Global) -> BeforeQueue
        ensures { StandsForGroups result [] nothing_done }
    {
        BeforeQueue {
            alloc,
            waiting: HashMap::new(alloc),
            slots: Vec::new(alloc),
            released: Tickets::new(alloc),
            links: 0,
            given: 0,
            groups: 0,
        }
    }

    /// Takes a group of commands behind all others, with all memory that they will need. Of a before set, numbers that
    /// no earlier command of the group has are nothing. Memory is also refused where tickets or the count of all
    /// waits run out.
    pub fn admit(&mut self, group: Vec<Command>) -> Result<(), NoMemory>
        ensures ok { (groups : List group_type) (done : ℕ → Bool) (next : group_type)
            → StandsForGroups self.old groups done
            → next.commands ≡ group.items
            → OnOk result (StandsForGroups self.new (groups ++ next ∷ []) done) }
        ensures err { (groups : List group_type) (done : ℕ → Bool) → StandsForGroups self.old groups done
            → OnErr result (StandsForGroups self.new groups done) }
    {
        if group.len() as u64 > u64::MAX - self.given || self.groups == u64::MAX {
            return Err(NoMemory);
        }
        if group.len() == 1 {
            return self.admit_first(group);
        }
        let arrived = arrive_all(self.alloc, &self.waiting, &self.slots, self.given, group)?;
        let links = count_all(self.links, arrived.as_slice())?;
        self.make_room(arrived.as_slice())?;
        self.join_all(arrived);
        self.groups += 1;
        self.links = links;
        Ok(())
    }

    /// The ticket of the first command after the given one, the first of all where none is given, that isn't complete
    /// and whose waits are all complete; takes no memory.
    pub fn ready(&self, after: Option<u64>) -> Option<u64>
        ensures first { (groups : List group_type) (done : ℕ → Bool) → StandsForGroups self.now groups done
            → result ≡ ready_of groups done after }
        ensures released { (groups : List group_type) (done : ℕ → Bool) → StandsForGroups self.now groups done
            → IfSome result (λ ticket. IsReleasedAt (placed_commands groups) done ticket) }
        ensures later { IfSome result (λ ticket. is_after after ticket ≡ true) }
    {
        self.released.after(after)
    }

    /// The command of a ticket, while it isn't complete; takes no memory.
    pub fn command(&self, ticket: u64) -> Option<&Command>
        ensures { (groups : List group_type) (done : ℕ → Bool) → StandsForGroups self.now groups done
            → option_copied result ≡ outstanding_command groups done ticket }
    {
        command_at(&self.waiting, ticket)
    }

    /// Which of the groups given, from 0 on, the command of a ticket is of, while it isn't complete; takes no memory.
    pub fn group(&self, ticket: u64) -> Option<u64>
        ensures { (groups : List group_type) (done : ℕ → Bool) → StandsForGroups self.now groups done
            → result ≡ outstanding_group groups done ticket }
    {
        group_at(&self.waiting, ticket)
    }

    /// The command of a ticket is complete, and is handed back, where it wasn't complete before. A ticket that was
    /// never
    /// given changes nothing. Takes no memory.
    pub fn complete(&mut self, ticket: u64) -> Option<Command>
        ensures stands { (groups : List group_type) (done : ℕ → Bool) → StandsForGroups self.old groups done
            → StandsForGroups self.new groups (done_with groups done ticket) }
        ensures command { (groups : List group_type) (done : ℕ → Bool) → StandsForGroups self.old groups done
            → result ≡ outstanding_command groups done ticket }
    {
        free(&mut self.waiting, &mut self.released, ticket)
    }

    /// Takes the only command of a group.
    fn admit_first(&mut self, mut group: Vec<Command>) -> Result<(), NoMemory>
        requires one { length group.items ≡ 1 }
        requires tickets { self.old.given + 1 < 2 ^ 64 }
        requires groups { self.old.groups + 1 < 2 ^ 64 }
        ensures ok { (groups : List group_type) (done : ℕ → Bool) (next : group_type)
            → StandsForGroups self.old groups done
            → next.commands ≡ group.items
            → OnOk result (StandsForGroups self.new (groups ++ next ∷ []) done) }
        ensures err { (groups : List group_type) (done : ℕ → Bool) → StandsForGroups self.old groups done
            → OnErr result (StandsForGroups self.new groups done) }
    {
        match group.pop() {
            Some(command) => self.admit_alone(command),
            None => Ok(()),
        }
    }

    /// Takes a command that is a group by itself. It meets no command of its group, so that nothing is noted of it.
    fn admit_alone(&mut self, command: Command) -> Result<(), NoMemory>
        requires tickets { self.old.given + 1 < 2 ^ 64 }
        requires groups { self.old.groups + 1 < 2 ^ 64 }
        ensures ok { (groups : List group_type) (done : ℕ → Bool) (next : group_type)
            → StandsForGroups self.old groups done
            → next.commands ≡ command ∷ []
            → OnOk result (StandsForGroups self.new (groups ++ next ∷ []) done) }
        ensures err { (groups : List group_type) (done : ℕ → Bool) → StandsForGroups self.old groups done
            → OnErr result (StandsForGroups self.new groups done) }
    {
        let nothing = Arrivals::new(self.alloc);
        let arrival = nothing.arrival(&self.waiting, &self.slots, self.given, command)?;
        let links = count_one(self.links, &arrival)?;
        self.make_room(slice::from_ref(&arrival))?;
        self.join(arrival);
        self.groups += 1;
        self.links = links;
        Ok(())
    }

    /// Room for what has arrived.
    fn make_room(&mut self, arrived: &[Arrival]) -> Result<(), NoMemory>
        ensures stands { (groups : List group_type) (done : ℕ → Bool) → StandsForGroups self.old groups done
            → StandsForGroups self.new groups done }
        ensures room { OnOk result (HaveArrived (get nat_eq self.old.waiting) (used_in self.old.slots.items)
            self.old.given [] arrived.now
            → self.old.links + link_count arrived.now < 2 ^ 62 → HasRoomForArrived self.new arrived.now) }
        ensures given { self.new.given ≡ self.old.given }
        ensures groups { self.new.groups ≡ self.old.groups }
        ensures links { self.new.links ≡ self.old.links }
    {
        cover_all(self.alloc, &self.waiting, &mut self.slots, arrived)?;
        self.waiting.reserve(arrived.len())?;
        let count = self.waiting.len().saturating_add(arrived.len());
        self.released.make_room(count)
    }

    /// Takes in what has arrived, for which there is room.
    fn join_all(&mut self, arrived: Vec<Arrival>)
        requires tickets { self.old.given + length arrived.items < 2 ^ 64 }
        ensures midway { (groups : List group_type) (done : ℕ → Bool) → group_type
            → HasRoomForArrived self.old arrived.items
            → KeepsGroups self.old groups done
            → IsMidway self.old self.new arrived.items groups done }
        ensures groups { self.new.groups ≡ self.old.groups }
    {
        for arrival in arrived {
            self.join(arrival);
        }
    }

    /// Takes in a command that has arrived, for which there is room.
    fn join(&mut self, arrival: Arrival)
        requires tickets { self.old.given + 1 < 2 ^ 64 }
        ensures waiting { (k : ℕ) (d : List ℕ) → AreShort (get nat_eq self.old.waiting) k
            → arrival.waits.items ≡ map (link_to self.old.given) d
            → k + length d < 2 ^ 63 → 0 < spare self.old.waiting → (t : ℕ) → get nat_eq self.new.waiting t
            ≡ (if self.old.given == t then Some (kept_new self.old.groups arrival.command (length d))
            else option_map (followed (gathered t (map (link_to self.old.given) d))) (get nat_eq self.old.waiting t)) }
        ensures slots { (k : ℕ) (d : List slot_type) → AreBrief (used_in self.old.slots.items) k
            → arrival.reads.items ≡ map (reading_of self.old.given) d
            → k + length d < 2 ^ 63 → (s : ℕ) → used_in self.new.slots.items s
            ≡ option_map (more_read (gathered_reads s arrival.reads.items))
            (if is_among (writes_of arrival.command.kind) (record { 0 = s })
            then option_map (rewritten self.old.given) (used_in self.old.slots.items s)
            else used_in self.old.slots.items s) }
        ensures released { IsRising self.old.released.items.items
            → deque_len self.old.released.items < deque_capacity self.old.released.items
            → self.new.released.items.items ≡ (if length arrival.waits.items == 0
            then put_in self.old.given self.old.released.items.items
            else self.old.released.items.items) }
        ensures capacity { deque_capacity self.old.released.items ≤ deque_capacity self.new.released.items }
        ensures spare { spare self.old.waiting ≤ spare self.new.waiting + 1 }
        ensures given { self.new.given ≡ self.old.given + 1 }
        ensures groups { self.new.groups ≡ self.old.groups }
        ensures links { self.new.links ≡ self.old.links }
    {
        let Arrival {
            command,
            waits,
            reads,
        } = arrival;
        let pending = waits.len() as u64;
        follow(&mut self.waiting, waits);
        write(&mut self.slots, command.kind.writes(), self.given);
        read(&mut self.slots, reads);
        offer(&mut self.released, self.given, pending);
        let w = Waiting {
            group: self.groups,
            command,
            pending,
            followers: LinkedList::new(self.alloc),
        };
        enter(&mut self.waiting, self.given, w);
        self.given += 1;
    }
}
