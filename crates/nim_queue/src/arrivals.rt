ghost use Rattle.std.specs.Prelude.{◌≡◌, ◌+◌, ◌<◌, ◌^◌, length, ◌||◌, ◌&&◌, ◌==◌, ◌++◌, ◌∷◌, [], ℕ, not, if◌then◌else◌, false, is_some, map, nat_eq, unwrap_or, IfOk, OnOk};
ghost use Rattle.std.specs.HashMap.{get};
ghost use Rattle.std.specs.HashSet as bag;
ghost use Rattle.std.specs.List.{list_any};
ghost use Rattle.nim_base.specs.declared.number.Slot.{Slot as slot_type};
ghost use Rattle.nim_command.specs.Slots.{does_write, is_among};
ghost use Rattle.nim_queue.specs.Used.{used_in};
ghost use Rattle.nim_queue.specs.Arrived.{HasArrived, HaveArrived, commands_of, does_await, link_to, reading_of};
ghost use Rattle.nim_queue.specs.Counts.{is_in};
ghost use Rattle.nim_queue.specs.Stands.{is_reader, is_writer};

use crate::slot_use::{SlotUse, use_of};
use crate::waiting::Waiting;
use nim_base::{NoMemory, Short, Slot};
use nim_command::Command;
use smallvec::SmallVec;
use std::alloc::Global;
use std::collections::{HashMap, HashSet, LinkedList};
use std::default::MadeWith;

/// Among no more tickets than these one is searched.
const FEW: usize = 16;

/// A command of a group before the queue has it, with all that the queue needs to take it in.
#[derive(Drop)]
pub(crate) struct Arrival {
    pub(crate) command: Command,
    /// The tickets of those that it waits for, some maybe more than once, each with its own ticket for their followers.
    pub(crate) waits: SmallVec<Link, 1>,
    /// The slots that it reads, each with its ticket for their readers.
    pub(crate) reads: SmallVec<Reading, 1>,
}

/// A ticket, and what is to be appended to the followers of its command.
#[derive(Drop)]
pub(crate) struct Link {
    pub(crate) earlier: u64,
    pub(crate) later: LinkedList<u64>,
}

impl MadeWith<Global> for Link {
    fn made_with(alloc: Global) -> Link {
        Link {
            earlier: 0,
            later: LinkedList::new(alloc),
        }
    }
}

/// A slot, and what is to be appended to its readers.
#[derive(Drop)]
pub(crate) struct Reading {
    pub(crate) slot: Slot,
    pub(crate) reader: LinkedList<u64>,
}

impl MadeWith<Global> for Reading {
    fn made_with(alloc: Global) -> Reading {
        Reading {
            slot: Slot(0),
            reader: LinkedList::new(alloc),
        }
    }
}

/// The commands of a group, the first with this ticket, behind those that wait.
pub(crate) fn arrive_all(
    alloc: Global,
    waiting: &HashMap<u64, Waiting>,
    slots: &Vec<Option<SlotUse>>,
    first: u64,
    commands: Vec<Command>,
) -> Result<Vec<Arrival>, NoMemory>
    requires { first + length commands.items < 2 ^ 64 }
    ensures commands { IfOk result (λ arrived. commands_of arrived.items ≡ commands.items) }
    ensures arrived { IfOk result (λ arrived. HaveArrived (get nat_eq waiting.now) (used_in slots.now.items) first []
        arrived.items) }
{
    let mut arrived = Vec::with_capacity(alloc, commands.len())?;
    let mut arrivals = Arrivals::new(alloc);
    let mut ticket = first;
    for command in commands {
        arrived.push(arrivals.arrive(waiting, slots, ticket, command)?)?;
        ticket += 1;
    }
    Ok(arrived)
}

/// What a group has so far: the tickets by the commands' numbers, and the slots that are written.
#[derive(Drop)]
pub(crate) struct Arrivals {
    alloc: Global,
    numbers: HashMap<u32, Short<u64, 1>>,
    written: HashSet<u16>,
}

impl Arrivals {
    /// Nothing yet; takes no memory.
    pub(crate) fn new(alloc: Global) -> Arrivals
        ensures numbers { (n : ℕ) → unwrap_or (get nat_eq result.numbers n) [] ≡ [] }
        ensures written { (s : ℕ) → bag.contains nat_eq result.written s ≡ false }
    {
        Arrivals {
            alloc,
            numbers: HashMap::new(alloc),
            written: HashSet::new(alloc),
        }
    }

    /// One more command arrives, with this ticket, behind those that wait.
    pub(crate) fn arrive(
        &mut self,
        waiting: &HashMap<u64, Waiting>,
        slots: &Vec<Option<SlotUse>>,
        ticket: u64,
        command: Command,
    ) -> Result<Arrival, NoMemory>
        ensures same { IfOk result (λ a. a.command ≡ command) }
        ensures arrival { IfOk result (λ a. HasArrived
            (record {
              kept = get nat_eq waiting.now;
              used = used_in slots.now.items;
              named = λ n. unwrap_or (get nat_eq self.old.numbers n) [];
              written = bag.contains nat_eq self.old.written;
            })
            ticket a) }
        ensures numbers { OnOk result ((n : ℕ) → unwrap_or (get nat_eq self.new.numbers n) []
            ≡ unwrap_or (get nat_eq self.old.numbers n) [] ++ (if command.id == n then ticket ∷ [] else [])) }
        ensures written { OnOk result ((s : ℕ) → bag.contains nat_eq self.new.written s
            ≡ (bag.contains nat_eq self.old.written s || does_write command.kind (record { 0 = s }))) }
    {
        let arrival = self.arrival(waiting, slots, ticket, command)?;
        note_number(self.alloc, &mut self.numbers, arrival.command.id, ticket)?;
        note_writes(&mut self.written, arrival.command.kind.writes())?;
        Ok(arrival)
    }

    /// A command with this ticket, behind those that wait and those of its group that arrived; it isn't noted.
    pub(crate) fn arrival(
        &self,
        waiting: &HashMap<u64, Waiting>,
        slots: &Vec<Option<SlotUse>>,
        ticket: u64,
        command: Command,
    ) -> Result<Arrival, NoMemory>
        ensures same { IfOk result (λ a. a.command ≡ command) }
        ensures arrival { IfOk result (λ a. HasArrived
            (record {
              kept = get nat_eq waiting.now;
              used = used_in slots.now.items;
              named = λ n. unwrap_or (get nat_eq self.now.numbers n) [];
              written = bag.contains nat_eq self.now.written;
            })
            ticket a) }
    {
        let tickets = self.reach(waiting, slots, &command)?;
        let waits = links(self.alloc, tickets.as_slice(), ticket)?;
        let reads = readings(self.alloc, command.kind.reads(), ticket)?;
        Ok(Arrival {
            command,
            waits,
            reads,
        })
    }

    /// The tickets of those that a command waits for.
    fn reach(
        &self,
        waiting: &HashMap<u64, Waiting>,
        slots: &Vec<Option<SlotUse>>,
        command: &Command,
    ) -> Result<Short<u64, 8>, NoMemory>
        ensures { IfOk result (λ tickets. (e : ℕ) → is_in e tickets ≡ does_await
            (record {
              kept = get nat_eq waiting.now;
              used = used_in slots.now.items;
              named = λ n. unwrap_or (get nat_eq self.now.numbers n) [];
              written = bag.contains nat_eq self.now.written;
            })
            command.now e) }
    {
        let mut tickets = Short::new(self.alloc);
        self.add_named(&mut tickets, command.before.as_slice())?;
        self.add_writers(&mut tickets, waiting, slots, command.kind.reads())?;
        self.add_writers(&mut tickets, waiting, slots, command.kind.writes())?;
        self.add_readers(&mut tickets, waiting, slots, command.kind.writes())?;
        Ok(tickets)
    }

    /// The commands of the group with these numbers.
    fn add_named(&self, tickets: &mut Short<u64, 8>, numbers: &[u32]) -> Result<(), NoMemory>
        ensures { OnOk result ((e : ℕ) → is_in e tickets.new ≡ (is_in e tickets.old
            || list_any (λ number. is_in e (unwrap_or (get nat_eq self.now.numbers number) [])) numbers.now)) }
    {
        for number in numbers {
            push_named(tickets, &self.numbers, *number)?;
        }
        Ok(())
    }

    /// The waiting commands that write these slots, where none of the group has written them.
    fn add_writers(
        &self,
        tickets: &mut Short<u64, 8>,
        waiting: &HashMap<u64, Waiting>,
        slots: &Vec<Option<SlotUse>>,
        touched: &[Slot],
    ) -> Result<(), NoMemory>
        ensures { OnOk result ((e : ℕ) → is_in e tickets.new ≡ (is_in e tickets.old || list_any (λ (slot : slot_type).
            not (bag.contains nat_eq self.now.written slot.0)
            && (is_writer e (used_in slots.now.items slot.0) && is_some (get nat_eq waiting.now e))) touched.now)) }
    {
        for slot in touched {
            if !self.written.contains(&slot.0) {
                push_writer(tickets, waiting, slots, *slot)?;
            }
        }
        Ok(())
    }

    /// The waiting commands that read these slots, where none of the group has written them.
    fn add_readers(
        &self,
        tickets: &mut Short<u64, 8>,
        waiting: &HashMap<u64, Waiting>,
        slots: &Vec<Option<SlotUse>>,
        written: &[Slot],
    ) -> Result<(), NoMemory>
        ensures { OnOk result ((e : ℕ) → is_in e tickets.new ≡ (is_in e tickets.old || list_any (λ (slot : slot_type).
            not (bag.contains nat_eq self.now.written slot.0)
            && (is_reader e (used_in slots.now.items slot.0) && is_some (get nat_eq waiting.now e))) written.now)) }
    {
        for slot in written {
            if !self.written.contains(&slot.0) {
                push_readers(tickets, waiting, slots, *slot)?;
            }
        }
        Ok(())
    }
}

fn note_number(
    alloc: Global,
    numbers: &mut HashMap<u32, Short<u64, 1>>,
    number: u32,
    ticket: u64,
) -> Result<(), NoMemory>
    ensures { OnOk result ((n : ℕ) → unwrap_or (get nat_eq numbers.new n) []
        ≡ unwrap_or (get nat_eq numbers.old n) [] ++ (if number == n then ticket ∷ [] else [])) }
{
    if let Some(named) = numbers.get_mut(&number) {
        named.push(ticket)?;
        return Ok(());
    }
    numbers.insert(number, Short::from_slice(alloc, &[ticket])?)?;
    Ok(())
}

fn note_writes(written: &mut HashSet<u16>, slots: &[Slot]) -> Result<(), NoMemory>
    ensures { OnOk result ((s : ℕ) → bag.contains nat_eq written.new s
        ≡ (bag.contains nat_eq written.old s || is_among slots.now (record { 0 = s }))) }
{
    for slot in slots {
        written.insert(slot.0)?;
    }
    Ok(())
}

fn push_named(
    tickets: &mut Short<u64, 8>,
    numbers: &HashMap<u32, Short<u64, 1>>,
    number: u32,
) -> Result<(), NoMemory>
    ensures { OnOk result ((e : ℕ) → is_in e tickets.new
        ≡ (is_in e tickets.old || is_in e (unwrap_or (get nat_eq numbers.now number) []))) }
{
    if let Some(named) = numbers.get(&number) {
        push_all(tickets, named.as_slice())?;
    }
    Ok(())
}

fn push_all(tickets: &mut Short<u64, 8>, more: &[u64]) -> Result<(), NoMemory>
    ensures { OnOk result (tickets.new ≡ tickets.old ++ more.now) }
{
    for ticket in more {
        tickets.push(*ticket)?;
    }
    Ok(())
}

fn push_writer(
    tickets: &mut Short<u64, 8>,
    waiting: &HashMap<u64, Waiting>,
    slots: &Vec<Option<SlotUse>>,
    slot: Slot,
) -> Result<(), NoMemory>
    ensures { OnOk result ((e : ℕ) → is_in e tickets.new
        ≡ (is_in e tickets.old
        || (is_writer e (used_in slots.now.items slot.0) && is_some (get nat_eq waiting.now e)))) }
{
    if let Some(used) = use_of(slots.as_slice(), slot) {
        if let Some(writer) = used.writer {
            push_kept(tickets, waiting, writer)?;
        }
    }
    Ok(())
}

fn push_readers(
    tickets: &mut Short<u64, 8>,
    waiting: &HashMap<u64, Waiting>,
    slots: &Vec<Option<SlotUse>>,
    slot: Slot,
) -> Result<(), NoMemory>
    ensures { OnOk result ((e : ℕ) → is_in e tickets.new
        ≡ (is_in e tickets.old
        || (is_reader e (used_in slots.now.items slot.0) && is_some (get nat_eq waiting.now e)))) }
{
    if let Some(used) = use_of(slots.as_slice(), slot) {
        push_each(tickets, waiting, &used.readers)?;
    }
    Ok(())
}

fn push_each(
    tickets: &mut Short<u64, 8>,
    waiting: &HashMap<u64, Waiting>,
    readers: &LinkedList<u64>,
) -> Result<(), NoMemory>
    ensures { OnOk result ((e : ℕ) → is_in e tickets.new
        ≡ (is_in e tickets.old || (is_in e readers.now && is_some (get nat_eq waiting.now e)))) }
{
    for reader in readers.iter() {
        push_kept(tickets, waiting, *reader)?;
    }
    Ok(())
}

/// A ticket, where its command waits. Where it is among a few that are there already, it isn't put there again.
fn push_kept(
    tickets: &mut Short<u64, 8>,
    waiting: &HashMap<u64, Waiting>,
    ticket: u64,
) -> Result<(), NoMemory>
    ensures { OnOk result ((e : ℕ) → is_in e tickets.new
        ≡ (is_in e tickets.old || ((e == ticket) && is_some (get nat_eq waiting.now e)))) }
{
    if tickets.len() <= FEW && is_known(tickets.as_slice(), ticket) {
        return Ok(());
    }
    if waiting.contains_key(&ticket) {
        tickets.push(ticket)?;
    }
    Ok(())
}

fn is_known(tickets: &[u64], ticket: u64) -> bool
    ensures { result ≡ is_in ticket tickets.now }
{
    tickets.iter().any(|other| ticket == *other)
}

fn links(alloc: Global, tickets: &[u64], later: u64) -> Result<SmallVec<Link, 1>, NoMemory>
    ensures { IfOk result (λ waits. waits.items ≡ map (link_to later) tickets.now) }
{
    let mut waits = SmallVec::with_capacity(alloc, tickets.len())?;
    for earlier in tickets {
        waits.push(Link {
            earlier: *earlier,
            later: alone(alloc, later)?,
        })?;
    }
    Ok(waits)
}

fn readings(alloc: Global, slots: &[Slot], reader: u64) -> Result<SmallVec<Reading, 1>, NoMemory>
    ensures { IfOk result (λ reads. reads.items ≡ map (reading_of reader) slots.now) }
{
    let mut reads = SmallVec::with_capacity(alloc, slots.len())?;
    for slot in slots {
        reads.push(Reading {
            slot: *slot,
            reader: alone(alloc, reader)?,
        })?;
    }
    Ok(reads)
}

fn alone(alloc: Global, ticket: u64) -> Result<LinkedList<u64>, NoMemory>
    ensures { IfOk result (λ list. list ≡ ticket ∷ []) }
{
    let mut list = LinkedList::new(alloc);
    list.push_back(ticket)?;
    Ok(list)
}
