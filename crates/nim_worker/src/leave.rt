ghost use Rattle.std.specs.Prelude.{◌≡◌, ◌∷◌, [], if◌then◌else◌, IfOk, OnOk, Some};
ghost use Rattle.std.specs.Option.{option_map, option_map_or, option_to_list};
ghost use Rattle.nim_base.specs.Value.{Grid};
ghost use Rattle.nim_command.specs.declared.command.Kind.TheVariants.{Fetch as fetch_type, Send as send_type};
ghost use Rattle.nim_command.specs.Created.{created};
ghost use Rattle.nim_command.specs.Holds.{put_at, version_after};
ghost use Rattle.nim_command.specs.Waits.{Group as group_type};
ghost use Rattle.nim_store.specs.Stored.{slot_at};
ghost use Rattle.nim_message.specs.declared.report.FromWorker.TheVariants.{Ran};
ghost use Rattle.nim_history.specs.declared.out.Out.TheVariants.{Report};
ghost use Rattle.nim_history.specs.Kept as spec;
ghost use Rattle.nim_history.specs.Kept.{fitting_shape, own_outs, held_or_empty};
ghost use Rattle.nim_worker.specs.Leaves.{IsHeadOf, left_with, told_with};

use crate::head::GroupHead;
use crate::taking::shape_of;
use nim_base::{Copied, NoMemory, Object, Position, Seq, Slot, Value, Version, Worker};
use nim_command::{Kind, object_of};
use nim_history::Out;
use nim_message::{Data, FromWorker};
use nim_store::{Held, Store};
use std::alloc::Global;

/// Leaves in the slots what a command leaves, a Receive the value of its frame and a Run its results, and gives what
/// the command gives of its own.
pub(crate) fn leave(
    alloc: Global,
    head: GroupHead,
    store: &mut Store,
    kind: Kind,
    frame: Option<Value>,
    contents: Vec<(Object, Version)>,
    results: Option<Vec<Value>>,
) -> Result<Option<Out>, NoMemory>
    ensures slots { OnOk result (slot_at store.new
        ≡ left_with store.old.shapes frame kind (option_map (λ values. values.items) results) (slot_at store.old)) }
    ensures out { (group : group_type) → IsHeadOf head group
        → IfOk result (λ out. option_to_list out ≡ told_with group kind contents.items (slot_at store.old)) }
    ensures shapes { store.new.shapes ≡ store.old.shapes }
{
    match kind {
        Kind::Create { slot, iota, number } => {
            create(alloc, store, slot, iota, number)?;
            Ok(None)
        }
        Kind::Load {
            slot,
            version,
            value,
        } => {
            store.put(slot, held_at(slot, version, value))?;
            Ok(None)
        }
        Kind::Send { slot, peer, entry } => Ok(Some(send(alloc, head, store, slot, peer, entry)?)),
        Kind::Receive { slot, version } => {
            receive(store, slot, version, frame)?;
            Ok(None)
        }
        Kind::Copy { from, to } => {
            copy(store, from, to)?;
            Ok(None)
        }
        Kind::Run {
            position,
            writes,
            ..
        } => {
            if let Some(results) = results {
                put_results(store, position, writes.as_slice(), results)?;
            }
            Ok(ran(head, position, contents))
        }
        Kind::Fetch { slot, ticket } => Ok(Some(fetch(alloc, head, store, slot, ticket)?)),
    }
}

/// Puts this into a slot, or empties it.
pub(crate) fn set(store: &mut Store, slot: Slot, held: Option<Held>) -> Result<(), NoMemory>
    ensures ok { OnOk result (slot_at store.new ≡ put_at slot held (slot_at store.old)) }
    ensures shapes { store.new.shapes ≡ store.old.shapes }
{
    match held {
        Some(held) => store.put(slot, held),
        None => {
            store.take(slot);
            Ok(())
        }
    }
}

/// A version of the slot's object.
fn held_at(slot: Slot, version: Version, value: Value) -> Held
    ensures { result ≡ spec.held_version slot version value }
{
    Held {
        object: object_of(slot),
        version,
        value,
    }
}

/// Makes the initial value of a slot's object, where the object has a shape.
fn create(
    alloc: Global,
    store: &mut Store,
    slot: Slot,
    iota: bool,
    number: i64,
) -> Result<(), NoMemory>
    ensures slots { OnOk result (slot_at store.new
        ≡ spec.put_shaped store.old.shapes slot
        (spec.held_version slot 0 (created (fitting_shape store.old.shapes slot) iota number)) (slot_at store.old)) }
    ensures shapes { store.new.shapes ≡ store.old.shapes }
{
    let Some(shape) = shape_of(store, slot) else {
        return Ok(());
    };
    let value = if iota {
        Value::iota(alloc, shape, number)?
    } else {
        Value::filled(alloc, shape, number)?
    };
    store.put(slot, held_at(slot, 0, value))
}

/// Puts the value of a frame into a slot, where there is a frame.
fn receive(
    store: &mut Store,
    slot: Slot,
    version: Version,
    frame: Option<Value>,
) -> Result<(), NoMemory>
    ensures slots { OnOk result (slot_at store.new
        ≡ option_map_or (λ (value : Grid). put_at slot (Some (spec.held_version slot version value))
        (slot_at store.old))
        frame
        (slot_at store.old)) }
    ensures shapes { store.new.shapes ≡ store.old.shapes }
{
    match frame {
        Some(value) => store.put(slot, held_at(slot, version, value)),
        None => Ok(()),
    }
}

/// Copies what a slot has into another one.
fn copy(store: &mut Store, from: Slot, to: Slot) -> Result<(), NoMemory>
    ensures slots { OnOk result (slot_at store.new ≡ put_at to (slot_at store.old from) (slot_at store.old)) }
    ensures shapes { store.new.shapes ≡ store.old.shapes }
{
    let copied = match store.held(from) {
        Some(held) => Some(held.copy()?),
        None => None,
    };
    set(store, to, copied)
}

/// Puts the results of a task into the slots that have a shape, one after another.
fn put_results(
    store: &mut Store,
    position: Position,
    writes: &[Slot],
    mut results: Vec<Value>,
) -> Result<(), NoMemory>
    ensures slots { OnOk result (slot_at store.new
        ≡ spec.put_results store.old.shapes (version_after position) writes.now results.items (slot_at store.old)) }
    ensures shapes { store.new.shapes ≡ store.old.shapes }
{
    let version = position.saturating_add(1);
    for slot in writes {
        if results.is_empty() {
            return Ok(());
        }
        let value = results.remove(0);
        put_shaped(store, *slot, held_at(*slot, version, value))?;
    }
    Ok(())
}

/// Puts a value into a slot, where the slot's object has a shape.
fn put_shaped(store: &mut Store, slot: Slot, held: Held) -> Result<(), NoMemory>
    ensures slots { OnOk result (slot_at store.new
        ≡ spec.put_shaped store.old.shapes slot held (slot_at store.old)) }
    ensures shapes { store.new.shapes ≡ store.old.shapes }
{
    if shape_of(store, slot).is_some() {
        return store.put(slot, held);
    }
    Ok(())
}

/// What a Run tells: what it read, where it came as a Single.
fn ran(head: GroupHead, position: Position, contents: Vec<(Object, Version)>) -> Option<Out>
    ensures { option_to_list result
        ≡ (if head.single then Report (Ran head.epoch position contents.items) ∷ [] else []) }
{
    if head.single {
        Some(Out::Report(FromWorker::Ran {
            epoch: head.epoch,
            position,
            reads: Seq::from_vec(contents),
        }))
    } else {
        None
    }
}

/// What a slot has, copied; an empty one is seen without rows.
fn copied(alloc: Global, store: &Store, slot: Slot) -> Result<Held, NoMemory>
    ensures { IfOk result (λ held. held ≡ held_or_empty (slot_at store.now) slot) }
{
    match store.held(slot) {
        Some(held) => held.copy(),
        None => Ok(held_at(slot, 0, Value::new(alloc, 1))),
    }
}

/// What a Fetch reports: what the slot has.
fn fetch(
    alloc: Global,
    head: GroupHead,
    store: &Store,
    slot: Slot,
    ticket: u32,
) -> Result<Out, NoMemory>
    ensures { (group : group_type) → IsHeadOf head group
        → IfOk result (λ out. out ∷ [] ≡ own_outs group (fetch_type slot ticket) (slot_at store.now)) }
{
    let held = copied(alloc, store, slot)?;
    Ok(Out::Report(FromWorker::Value {
        epoch: head.epoch,
        ticket,
        object: held.object,
        version: held.version,
        value: held.value,
    }))
}

/// What a Send sends: what the slot has.
fn send(
    alloc: Global,
    head: GroupHead,
    store: &Store,
    slot: Slot,
    peer: Worker,
    entry: u32,
) -> Result<Out, NoMemory>
    ensures { (group : group_type) → IsHeadOf head group
        → IfOk result (λ out. out ∷ [] ≡ own_outs group (send_type slot peer entry) (slot_at store.now)) }
{
    let held = copied(alloc, store, slot)?;
    Ok(Out::Data(
        peer,
        Data {
            epoch: head.epoch,
            instance: head.instance,
            entry,
            object: held.object,
            version: held.version,
            value: held.value,
        },
    ))
}
