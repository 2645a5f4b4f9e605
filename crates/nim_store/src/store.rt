ghost use Rattle.std.specs.Prelude.{◌≡◌, ◌<◌, ◌≤◌, [], None, Some, length, slice_get, IsOk, IsSome, OnOk, OnErr};
ghost use Rattle.std.specs.Option.{option_copied};
ghost use Rattle.nim_base.specs.declared.number.Slot.{Slot as slot_number};
ghost use Rattle.nim_command.specs.Holds.{put_at};
ghost use Rattle.nim_store.specs.Stored.{HasPlace, KeepsPlaces, slot_content, slot_at};

use crate::Held;
use nim_base::{NoMemory, Object, Shape, Slot};
use std::alloc::Global;
use std::marker::Model;

/// The slots of a worker, and the shapes of all objects. Contracts see it as a map from slots (`slot_at` of
/// `specs/Stored.antt`) and the list of the shapes. Any number is a slot. A slot that was put into has a place until
/// the next `reset`, and so have those of smaller numbers. Only a `put` takes memory, and only into a slot past all
/// that had a place since the store was made.
#[derive(Drop)]
pub struct Store {
    shapes: Vec<Shape>,
    slots: Vec<Option<Held>>,
}

impl Model for Store {
    ghost use Rattle.nim_store.specs.Stored.{Stored};

    ghost Value = { Stored };

    ghost view = { λ s. record { shapes = s.shapes.items; slots = s.slots.items } };
}

impl Store {
    /// All slots are empty, and no object has a shape; takes no memory.
    pub fn new(alloc: Global) -> Store
        ensures shapes { result.shapes ≡ [] }
        ensures slots { slot_at result ≡ λ (slot : slot_number). None }
    {
        Store {
            shapes: Vec::new(alloc),
            slots: Vec::new(alloc),
        }
    }

    /// Begins anew with these shapes, and with all slots empty; takes no memory.
    pub fn reset(&mut self, shapes: Vec<Shape>)
        ensures shapes { self.new.shapes ≡ shapes.items }
        ensures slots { slot_at self.new ≡ λ (slot : slot_number). None }
    {
        self.shapes = shapes;
        self.slots.clear();
    }

    /// The shape of an object, if it has one.
    pub fn shape(&self, object: Object) -> Option<Shape>
        ensures { result ≡ slice_get self.now.shapes object.0 }
    {
        self.shapes.get(usize::from(object.0)).copied()
    }

    /// What a slot has, which stays there.
    pub fn held(&self, slot: Slot) -> Option<&Held>
        ensures value { option_copied result ≡ slot_at self.now slot }
        ensures place { IsSome result → HasPlace self.now slot }
    {
        look(self.slots.as_slice(), slot)
    }

    /// Takes what a slot has, and leaves it empty; `None` exactly where it was empty. Takes no memory.
    pub fn take(&mut self, slot: Slot) -> Option<Held>
        ensures value { result ≡ slot_at self.old slot }
        ensures slots { slot_at self.new ≡ put_at slot None (slot_at self.old) }
        ensures shapes { self.new.shapes ≡ self.old.shapes }
        ensures place { IsSome result → HasPlace self.new slot }
        ensures places { KeepsPlaces self.old self.new }
    {
        take_from(&mut self.slots, slot)
    }

    /// Puts this into a slot, in place of what was there, which is dropped. After want of memory the store is as it
    /// was; a slot that has a place wants none.
    pub fn put(&mut self, slot: Slot, held: Held) -> Result<(), NoMemory>
        ensures ok { OnOk result (slot_at self.new ≡ put_at slot (Some held) (slot_at self.old)) }
        ensures shapes { self.new.shapes ≡ self.old.shapes }
        ensures err { OnErr result (self.new ≡ self.old) }
        ensures room { HasPlace self.old slot → IsOk result }
        ensures place { OnOk result (HasPlace self.new slot) }
        ensures places { KeepsPlaces self.old self.new }
    {
        put_into(&mut self.slots, slot, held)
    }
}

fn look(slots: &[Option<Held>], slot: Slot) -> Option<&Held>
    ensures value { option_copied result ≡ slot_content slots.now slot }
    ensures place { IsSome result → slot.0 < length slots.now }
{
    match slots.get(usize::from(slot.0)) {
        Some(held) => held.as_ref(),
        None => None,
    }
}

fn take_from(slots: &mut Vec<Option<Held>>, slot: Slot) -> Option<Held>
    ensures value { result ≡ slot_content slots.old.items slot }
    ensures slots { slot_content slots.new.items ≡ put_at slot None (slot_content slots.old.items) }
    ensures place { IsSome result → slot.0 < length slots.new.items }
    ensures places { length slots.new.items ≡ length slots.old.items }
{
    let at = usize::from(slot.0);
    if at < slots.len() {
        slots[at].take()
    } else {
        None
    }
}

fn put_into(slots: &mut Vec<Option<Held>>, slot: Slot, held: Held) -> Result<(), NoMemory>
    ensures ok { OnOk result (slot_content slots.new.items ≡ put_at slot (Some held) (slot_content slots.old.items)) }
    ensures err { OnErr result (slots.new.items ≡ slots.old.items) }
    ensures room { slot.0 < length slots.old.items → IsOk result }
    ensures place { OnOk result (slot.0 < length slots.new.items) }
    ensures places { length slots.old.items ≤ length slots.new.items }
{
    reach(slots, slot)?;
    slots[usize::from(slot.0)] = Some(held);
    Ok(())
}

/// Makes sure that there is a place for this slot; places that are new are empty.
fn reach(slots: &mut Vec<Option<Held>>, slot: Slot) -> Result<(), NoMemory>
    ensures slots { slot_content slots.new.items ≡ slot_content slots.old.items }
    ensures there { OnOk result (slot.0 < length slots.new.items) }
    ensures err { OnErr result (slots.new.items ≡ slots.old.items) }
    ensures room { slot.0 < length slots.old.items → IsOk result }
    ensures places { length slots.old.items ≤ length slots.new.items }
{
    let count = usize::from(slot.0) + 1;
    if slots.len() < count {
        slots.resize_with(count, || None)?;
    }
    Ok(())
}
