ghost use Rattle.std.specs.Prelude.{◌≡◌, ◌++◌, ◌∷◌, [], true, not, map, IfOk};
ghost use Rattle.std.specs.List.{filter};
ghost use Rattle.nim_command.specs.declared.moved.FirstRead.{FirstRead as read_type};
ghost use Rattle.nim_command.specs.Edits as spec;

use crate::numbers::{entry_number, main_slot, offset_after, scratch_slot};
use crate::{Edit, Entry, EntryKind, Spec};
use nim_base::{NoMemory, Object, Short, Slot, Worker};
use std::alloc::Global;

/// A read of an object that isn't read before in its task: its place among the reads, the offset of the version, and
/// whether the new owner has it already.
#[derive(Clone, Copy, Debug)]
pub(crate) struct FirstRead {
    pub(crate) index: usize,
    pub(crate) object: Object,
    pub(crate) offset: u16,
    pub(crate) there: bool,
}

/// The entries that an edit puts.
pub(crate) fn put_by(alloc: Global, edit: &Edit) -> Result<Vec<Entry>, NoMemory>
    ensures { IfOk result (λ entries. entries.items ≡ spec.put_by edit.now) }
{
    match edit {
        Edit::Away {
            task,
            to,
            mask,
            spec,
        } => away(alloc, *task, *to, *mask, spec),
        Edit::Here {
            task,
            from,
            mask,
            spec,
        } => here(alloc, *task, *from, *mask, spec),
        Edit::Gone { .. } => Ok(Vec::new(alloc)),
        Edit::Home { task, spec } => {
            let mut entries = Vec::new(alloc);
            entries.push(run_over(alloc, false, *task, spec)?)?;
            Ok(entries)
        }
    }
}

/// At the home of a task that runs elsewhere: what is sent there, and what comes back.
fn away(
    alloc: Global,
    task: u16,
    to: Worker,
    mask: u8,
    moved: &Spec,
) -> Result<Vec<Entry>, NoMemory>
    ensures { IfOk result (λ entries. entries.items
        ≡ map (spec.forward_send task to) (filter (λ (r : read_type). not r.there)
        (spec.first_reads [] mask moved.now.reads))
        ++ spec.return_receives task 0 moved.now.writes) }
{
    let reads = first_reads(alloc, moved.reads.as_slice(), mask)?;
    let mut entries = forward_sends(alloc, task, to, reads.as_slice())?;
    let mut receives = return_receives(alloc, task, moved.writes.as_slice())?;
    entries.append(&mut receives)?;
    Ok(entries)
}

/// At the new owner: what comes from the home, the run over scratch slots, and what is sent back.
fn here(
    alloc: Global,
    task: u16,
    from: Worker,
    mask: u8,
    moved: &Spec,
) -> Result<Vec<Entry>, NoMemory>
    ensures { IfOk result (λ entries. entries.items
        ≡ map (spec.forward_receive task) (spec.first_reads [] mask moved.now.reads)
        ++ spec.run_over true task moved.now ∷ spec.return_sends task from 0 moved.now.writes) }
{
    let reads = first_reads(alloc, moved.reads.as_slice(), mask)?;
    let mut entries = forward_receives(alloc, task, reads.as_slice())?;
    let mut sends = return_sends(alloc, task, from, moved.writes.as_slice())?;
    entries.push(run_over(alloc, true, task, moved)?)?;
    entries.append(&mut sends)?;
    Ok(entries)
}

/// The reads of objects that aren't read before, each with its place, and whether the mask has its bit.
fn first_reads(alloc: Global, reads: &[(Object, u16)], mask: u8) -> Result<Vec<FirstRead>, NoMemory>
    ensures { IfOk result (λ firsts. firsts.items ≡ spec.first_reads [] mask reads.now) }
{
    let mut firsts = Vec::new(alloc);
    let mut bits = mask;
    for (index, read) in reads.iter().enumerate() {
        if !is_read(&reads[..index], read.0) {
            firsts.push(FirstRead {
                index,
                object: read.0,
                offset: read.1,
                there: bits % 2 == 1,
            })?;
        }
        bits /= 2;
    }
    Ok(firsts)
}

fn is_read(reads: &[(Object, u16)], object: Object) -> bool
    ensures { result ≡ spec.is_read reads.now object }
{
    reads.iter().any(|read| read.0.0 == object.0)
}

fn forward_sends(
    alloc: Global,
    task: u16,
    to: Worker,
    reads: &[FirstRead],
) -> Result<Vec<Entry>, NoMemory>
    ensures { IfOk result (λ entries. entries.items
        ≡ map (spec.forward_send task to) (filter (λ (r : read_type). not r.there) reads.now)) }
{
    let sends = reads
        .iter()
        .filter(|read| !read.there)
        .map(|read| forward_send(alloc, task, to, read))
        .collect(alloc)?;
    Ok(sends)
}

fn forward_send(alloc: Global, task: u16, to: Worker, read: &FirstRead) -> Entry
    ensures { result ≡ spec.forward_send task to read.now }
{
    let kind = EntryKind::Send {
        slot: main_slot(read.object),
        peer: to,
        entry: entry_number(task, 3, read.index),
    };
    entry_of(alloc, entry_number(task, 2, read.index), kind)
}

fn forward_receives(alloc: Global, task: u16, reads: &[FirstRead]) -> Result<Vec<Entry>, NoMemory>
    ensures { IfOk result (λ entries. entries.items ≡ map (spec.forward_receive task) reads.now) }
{
    let receives = reads
        .iter()
        .map(|read| forward_receive(alloc, task, read))
        .collect(alloc)?;
    Ok(receives)
}

fn forward_receive(alloc: Global, task: u16, read: &FirstRead) -> Entry
    ensures { result ≡ spec.forward_receive task read.now }
{
    let scratch = scratch_slot(read.object);
    let kind = if read.there {
        EntryKind::Copy {
            from: main_slot(read.object),
            to: scratch,
        }
    } else {
        EntryKind::Receive {
            slot: scratch,
            offset: read.offset,
        }
    };
    entry_of(alloc, entry_number(task, 3, read.index), kind)
}

/// The run, over scratch slots or over main slots.
fn run_over(alloc: Global, scratch: bool, task: u16, moved: &Spec) -> Result<Entry, NoMemory>
    ensures { IfOk result (λ entry. entry ≡ spec.run_over scratch task moved.now) }
{
    let kind = EntryKind::Run {
        func: moved.func,
        params: Short::from_slice(alloc, moved.params.as_slice())?,
        reads: read_slots(alloc, scratch, moved.reads.as_slice())?,
        writes: written_slots(alloc, scratch, moved.writes.as_slice())?,
    };
    Ok(entry_of(alloc, entry_number(task, 4, 0), kind))
}

fn read_slots(
    alloc: Global,
    scratch: bool,
    reads: &[(Object, u16)],
) -> Result<Short<Slot, 8>, NoMemory>
    ensures { IfOk result (λ slots. slots ≡ spec.read_slots scratch reads.now) }
{
    let mut slots = Short::new(alloc);
    for read in reads {
        slots.push(slot_for(scratch, read.0))?;
    }
    Ok(slots)
}

fn written_slots(
    alloc: Global,
    scratch: bool,
    objects: &[Object],
) -> Result<Short<Slot, 2>, NoMemory>
    ensures { IfOk result (λ slots. slots ≡ spec.written_slots scratch objects.now) }
{
    let mut slots = Short::new(alloc);
    for object in objects {
        slots.push(slot_for(scratch, *object))?;
    }
    Ok(slots)
}

/// The scratch slot of an object, or its main slot.
fn slot_for(scratch: bool, object: Object) -> Slot
    ensures { result ≡ spec.slot_for scratch object }
{
    if scratch {
        scratch_slot(object)
    } else {
        main_slot(object)
    }
}

fn return_sends(
    alloc: Global,
    task: u16,
    home: Worker,
    objects: &[Object],
) -> Result<Vec<Entry>, NoMemory>
    ensures { IfOk result (λ entries. entries.items ≡ spec.return_sends task home 0 objects.now) }
{
    let mut entries = Vec::new(alloc);
    for (index, object) in objects.iter().enumerate() {
        let kind = EntryKind::Send {
            slot: scratch_slot(*object),
            peer: home,
            entry: entry_number(task, 6, index),
        };
        entries.push(entry_of(alloc, entry_number(task, 5, index), kind))?;
    }
    Ok(entries)
}

fn return_receives(alloc: Global, task: u16, objects: &[Object]) -> Result<Vec<Entry>, NoMemory>
    ensures { IfOk result (λ entries. entries.items ≡ spec.return_receives task 0 objects.now) }
{
    let mut entries = Vec::new(alloc);
    for (index, object) in objects.iter().enumerate() {
        let kind = EntryKind::Receive {
            slot: main_slot(*object),
            offset: offset_after(task),
        };
        entries.push(entry_of(alloc, entry_number(task, 6, index), kind))?;
    }
    Ok(entries)
}

/// An entry with no before set yet.
fn entry_of(alloc: Global, id: u32, kind: EntryKind) -> Entry
    ensures { result ≡ spec.entry_of id kind }
{
    Entry {
        id,
        kind,
        before: Short::new(alloc),
    }
}
