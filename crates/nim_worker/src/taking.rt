ghost use Rattle.std.specs.Prelude.{◌≡◌, ◌≤◌, ◌<◌, ◌+◌, ℕ, List, true, [], length, map, slice_index_or, All, IfOk, IfSome};
ghost use Rattle.std.specs.Vec.{vec_capacity};
ghost use Rattle.std.specs.List.{position_or_len};
ghost use Rattle.std.specs.Option.{option_map, option_map_or};
ghost use Rattle.nim_base.specs.declared.number.Object.{Object as object};
ghost use Rattle.nim_base.specs.declared.number.Shape.{Shape as shape_type};
ghost use Rattle.nim_base.specs.declared.number.Slot.{Slot as slot_type};
ghost use Rattle.nim_base.specs.declared.task.Func.{Func as func_type};
ghost use Rattle.nim_base.specs.Apply.{HasCounts};
ghost use Rattle.nim_base.specs.Value.{empty_grid};
ghost use Rattle.nim_command.specs.Slots.{is_among};
ghost use Rattle.nim_store.specs.declared.held.Held.{Held as held_in};
ghost use Rattle.nim_store.specs.Stored.{slot_at};
ghost use Rattle.nim_history.specs.Kept as kept_spec;
ghost use Rattle.nim_history.specs.Kept.{content_seen, held_or_empty};
ghost use Rattle.nim_worker.specs.Inputs as spec;
ghost use Rattle.nim_worker.specs.Inputs.{AreAmong, AreInputs, AreSeen, Continues, IsIdle, given_back, is_from};
ghost use Rattle.nim_worker.specs.Works.{AreInputsOf, func_taken};

use crate::inputs::{Inputs, Taken};
use nim_base::{Func, NoMemory, Object, Shape, Slot, Value, Version};
use nim_command::{Kind, object_of};
use nim_store::{Held, Store};
use std::alloc::Global;

impl Inputs {
    /// Room for inputs, and nothing in it.
    pub(crate) fn new(alloc: Global) -> Result<Inputs, NoMemory>
        ensures { IfOk result IsIdle }
    {
        Ok(Inputs {
            params: Vec::with_capacity(alloc, 3)?,
            taken: Vec::with_capacity(alloc, 8)?,
            values: Vec::with_capacity(alloc, 8)?,
            places: Vec::with_capacity(alloc, 8)?,
            contents: Vec::with_capacity(alloc, 8)?,
            shapes: Vec::with_capacity(alloc, 2)?,
        })
    }

    /// Takes what a command reads out of its slots, where it is a Run whose counts are its function's, and gives this
    /// function; else nothing. Takes no memory.
    pub(crate) fn take_for(&mut self, alloc: Global, kind: &Kind, store: &mut Store) -> Option<Func>
        requires idle { IsIdle self.old }
        ensures func { result ≡ func_taken kind.now }
        ensures inputs { AreInputsOf store.old.shapes kind.now (slot_at store.old) (slot_at store.new) self.new }
        ensures shapes { store.new.shapes ≡ store.old.shapes }
        ensures counted { IfSome result
            (λ (f : func_type). HasCounts f self.new.params.items self.new.places.items self.new.shapes.items) }
    {
        match kind {
            Kind::Run {
                func,
                params,
                reads,
                writes,
                ..
            } if func.has_counts(params.len(), reads.len(), writes.len()) => {
                self.take(
                    alloc,
                    store,
                    params.as_slice(),
                    reads.as_slice(),
                    writes.as_slice(),
                );
                Some(*func)
            }
            _ => None,
        }
    }

    /// Takes what a task reads out of its slots.
    fn take(
        &mut self,
        alloc: Global,
        store: &mut Store,
        params: &[i64],
        reads: &[Slot],
        writes: &[Slot],
    )
        requires idle { IsIdle self.old }
        requires params { length params.now ≤ 3 }
        requires reads { length reads.now ≤ 8 }
        requires writes { length writes.now ≤ 2 }
        ensures inputs { AreInputs store.old.shapes params.now reads.now writes.now
            (slot_at store.old) (slot_at store.new) self.new }
        ensures shapes { store.new.shapes ≡ store.old.shapes }
    {
        // There is room for the parameters.
        let _ = self.params.extend_from_slice(params);
        for slot in reads {
            let (place, content) = take_read(
                alloc,
                store,
                *slot,
                &mut self.taken,
                &mut self.values,
            );
            self.places.push_reserved(place);
            self.contents.push_reserved(content);
        }
        push_shapes(&mut self.shapes, store, writes);
    }
}

/// Takes what a slot has, where it isn't taken yet: its place among what is taken, and its object and version.
fn take_read(
    alloc: Global,
    store: &mut Store,
    slot: Slot,
    taken: &mut Vec<Taken>,
    values: &mut Vec<Value>,
) -> (usize, (Object, Version))
    requires paired { length taken.old.items ≡ length values.old.items }
    requires fits { length taken.old.items < 8 }
    requires room { (8 ≤ vec_capacity taken.old) × (8 ≤ vec_capacity values.old) }
    requires seen { AreSeen taken.old.items values.old.items }
    ensures paired { length taken.new.items ≡ length values.new.items }
    ensures seen { AreSeen taken.new.items values.new.items }
    ensures fits { length taken.new.items ≤ length taken.old.items + 1 }
    ensures room { (8 ≤ vec_capacity taken.new) × (8 ≤ vec_capacity values.new) }
    ensures back { given_back taken.new.items values.new.items (slot_at store.new)
        ≡ given_back taken.old.items values.old.items (slot_at store.old) }
    ensures among { (reads : List slot_type) → is_among reads slot ≡ true → AreAmong reads taken.old.items
        → AreAmong reads taken.new.items }
    ensures more { Continues values.old.items values.new.items }
    ensures shapes { store.new.shapes ≡ store.old.shapes }
    ensures place { result.0 < length values.new.items }
    ensures value { slice_index_or values.new.items result.0 empty_grid
        ≡ (held_or_empty (given_back taken.old.items values.old.items (slot_at store.old)) slot).value }
    ensures content { result.1 ≡ content_seen (given_back taken.old.items values.old.items (slot_at store.old)) slot }
{
    let place = place_of(taken.as_slice(), slot);
    if place < taken.len() {
        return (place, content_of(taken[place]));
    }
    let (content, value) = apart(alloc, store.take(slot));
    let now = Taken { slot, content };
    taken.push_reserved(now);
    values.push_reserved(value);
    (place, content_of(now))
}

/// The place of a slot among what is taken; past the end where it isn't taken.
fn place_of(taken: &[Taken], slot: Slot) -> usize
    ensures { result ≡ position_or_len (is_from slot) taken.now }
{
    taken.iter().take_while(|t| slot.0 != t.slot.0).count()
}

/// What a slot that was emptied is read as.
fn content_of(taken: Taken) -> (Object, Version)
    ensures { result ≡ spec.content_of taken }
{
    match taken.content {
        Some(content) => content,
        None => (object_of(taken.slot), 0),
    }
}

/// The content and the value of what a slot has, apart.
fn apart(alloc: Global, held: Option<Held>) -> (Option<(Object, Version)>, Value)
    ensures held { option_map
        (λ (content : object × ℕ). record { object = content.0; version = content.1; value = result.1 }) result.0
        ≡ held }
    ensures value { result.1 ≡ option_map_or (λ (h : held_in). h.value) held empty_grid }
{
    match held {
        Some(held) => (Some((held.object, held.version)), held.value),
        None => (None, Value::new(alloc, 1)),
    }
}

/// Appends the shapes that results are fitted to, one a slot that is written.
fn push_shapes(fitting: &mut Vec<Shape>, store: &Store, writes: &[Slot])
    requires idle { fitting.old.items ≡ [] }
    requires fits { length writes.now ≤ 2 }
    requires room { 2 ≤ vec_capacity fitting.old }
    ensures room { 2 ≤ vec_capacity fitting.new }
    ensures shapes { fitting.new.items ≡ map (kept_spec.fitting_shape store.now.shapes) writes.now }
    ensures wide { All (λ (shape : shape_type). 1 ≤ shape.width) fitting.new.items }
{
    for slot in writes {
        fitting.push_reserved(fitting_shape(store, *slot));
    }
}

/// The shape of a slot's object, if it has one with columns.
pub(crate) fn shape_of(store: &Store, slot: Slot) -> Option<Shape>
    ensures shape { result ≡ kept_spec.shape_of store.now.shapes slot }
    ensures wide { IfSome result (λ shape. 1 ≤ shape.width) }
{
    match store.shape(object_of(slot)) {
        Some(shape) if shape.width > 0 => Some(shape),
        _ => None,
    }
}

/// The shape that a result is fitted to; where there is none the result isn't kept.
fn fitting_shape(store: &Store, slot: Slot) -> Shape
    ensures shape { result ≡ kept_spec.fitting_shape store.now.shapes slot }
    ensures wide { 1 ≤ result.width }
{
    match shape_of(store, slot) {
        Some(shape) => shape,
        None => Shape { width: 1, rows: 0 },
    }
}
