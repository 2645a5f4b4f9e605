ghost use Rattle.std.specs.Prelude.{◌≡◌, ◌≤◌, ◌<◌, ℕ, ◌==◌, ◌||◌, ◌&&◌, ◌++◌, ◌∷◌, [], true, List, length, is_some, unwrap_or, slice_index_or, if◌then◌else◌, IfOk, OnOk};
ghost use Rattle.std.specs.List.{list_any};
ghost use Rattle.std.specs.Option.{option_copied};
ghost use Rattle.nim_base.specs.declared.number.Slot.{Slot as slot_type};
ghost use Rattle.nim_command.specs.Before.{Footprint};
ghost use Rattle.nim_command.specs.LastUses as spec;
ghost use Rattle.nim_command.specs.LastUses.{IsAt, IsPastOf, Rises, is_in, is_last_user, is_writer, readers_of, writer_of};
ghost use Rattle.nim_command.specs.Slots.{is_among};

use crate::before::Waits;
use nim_base::{NoMemory, Short, Slot};
use std::alloc::Global;

/// Who of a list used each slot last, by their places in the list. Their meaning is `IsPastOf` of
/// `specs/LastUses.antt`.
#[derive(Drop)]
pub(crate) struct LastUses {
    alloc: Global,
    /// By the number of a slot, where its use stands, if it has one.
    at: Vec<usize>,
    uses: Vec<SlotUse>,
}

/// Who used a slot: its last writer, and the readers since.
#[derive(Drop)]
struct SlotUse {
    slot: Slot,
    writer: Option<usize>,
    readers: Short<usize, 4>,
}

impl LastUses {
    /// Those of no list; takes no memory.
    pub(crate) fn new(alloc: Global) -> LastUses
        ensures { IsPastOf result [] }
    {
        LastUses {
            alloc,
            at: Vec::new(alloc),
            uses: Vec::new(alloc),
        }
    }

    /// One more comes behind those of the list, at this place.
    pub(crate) fn note<T: Waits>(&mut self, place: usize, next: &T) -> Result<(), NoMemory>
        ensures { OnOk result ((past : List Footprint) → place ≡ length past → IsPastOf self.old past
            → IsPastOf self.new (past ++ T.footprint next.now ∷ [])) }
    {
        self.note_writes(place, next.writes())?;
        self.note_reads(place, next.reads())?;
        Ok(())
    }

    /// Puts into a list the places, in order, of the last writers of slots that are touched and of the readers since of
    /// those that are written.
    pub(crate) fn places<T: Waits>(
        &self,
        places: &mut Vec<usize>,
        later: &T,
    ) -> Result<(), NoMemory>
        ensures rise { OnOk result (Rises 0 places.new.items) }
        ensures met { OnOk result
            ((p : ℕ) → is_in p places.new.items ≡ is_last_user self.now (T.footprint later.now) p) }
    {
        self.met(places, later)?;
        places.sort_unstable();
        places.dedup();
        Ok(())
    }

    /// The same in any order, some maybe more than once.
    fn met<T: Waits>(&self, places: &mut Vec<usize>, later: &T) -> Result<(), NoMemory>
        ensures { OnOk result ((p : ℕ) → is_in p places.new.items ≡ is_last_user self.now (T.footprint later.now) p) }
    {
        let read = later.reads();
        let written = later.writes();
        places.clear();
        self.push_writers(places, read)?;
        self.push_writers(places, written)?;
        self.push_readers(places, written)?;
        Ok(())
    }

    /// The one at this place is now the last writer of these slots, which have no readers any more.
    fn note_writes(&mut self, place: usize, slots: &[Slot]) -> Result<(), NoMemory>
        ensures { OnOk result ((s : slot_type) → spec.use_of self.new s
            ≡ (if is_among slots.now s then spec.written s place else spec.use_of self.old s)) }
    {
        for slot in slots {
            self.note_write(place, *slot)?;
        }
        Ok(())
    }

    fn note_write(&mut self, place: usize, slot: Slot) -> Result<(), NoMemory>
        ensures { OnOk result ((s : slot_type) → spec.use_of self.new s
            ≡ (if slot.0 == s.0 then spec.written s place else spec.use_of self.old s)) }
    {
        let at = self.reach(slot)?;
        self.uses[at] = SlotUse {
            slot,
            writer: Some(place),
            readers: Short::new(self.alloc),
        };
        Ok(())
    }

    /// The one at this place reads these slots.
    fn note_reads(&mut self, place: usize, slots: &[Slot]) -> Result<(), NoMemory>
        ensures writers { OnOk result ((s : slot_type) → writer_of self.new s ≡ writer_of self.old s) }
        ensures readers { OnOk result ((s : slot_type) (p : ℕ) → is_in p (readers_of self.new s)
            ≡ (is_in p (readers_of self.old s) || (is_among slots.now s && (p == place)))) }
    {
        for slot in slots {
            self.note_read(place, *slot)?;
        }
        Ok(())
    }

    fn note_read(&mut self, place: usize, slot: Slot) -> Result<(), NoMemory>
        ensures { OnOk result ((s : slot_type) → spec.use_of self.new s
            ≡ (if slot.0 == s.0 then spec.with_reader place (spec.use_of self.old s) else spec.use_of self.old s)) }
    {
        let at = self.reach(slot)?;
        self.uses[at].readers.push(place)?;
        Ok(())
    }

    /// Where the use of a slot stands, which has one from now on.
    fn reach(&mut self, slot: Slot) -> Result<usize, NoMemory>
        ensures same { OnOk result ((s : slot_type) → spec.use_of self.new s ≡ spec.use_of self.old s) }
        ensures there { IfOk result (λ at. IsAt self.new slot at) }
    {
        if self.found(slot).is_none() {
            self.add(slot)?;
        }
        Ok(self.place_of(slot))
    }

    /// A slot that has no use gets one, of nobody.
    fn add(&mut self, slot: Slot) -> Result<(), NoMemory>
        requires { spec.use_of self.old slot ≡ spec.nobody slot }
        ensures same { OnOk result ((s : slot_type) → spec.use_of self.new s ≡ spec.use_of self.old s) }
        ensures there { OnOk result (IsAt self.new slot (spec.place_of self.new slot)) }
    {
        let next = self.uses.len();
        put(&mut self.at, usize::from(slot.0), next)?;
        self.uses.push(SlotUse {
            slot,
            writer: None,
            readers: Short::new(self.alloc),
        })?;
        Ok(())
    }

    /// The last writers of these slots.
    fn push_writers(&self, places: &mut Vec<usize>, slots: &[Slot]) -> Result<(), NoMemory>
        ensures { OnOk result ((p : ℕ) → is_in p places.new.items ≡ (is_in p places.old.items
            || list_any (λ (slot : slot_type). is_writer p (writer_of self.now slot)) slots.now)) }
    {
        for slot in slots {
            self.push_writer(places, *slot)?;
        }
        Ok(())
    }

    fn push_writer(&self, places: &mut Vec<usize>, slot: Slot) -> Result<(), NoMemory>
        ensures { OnOk result ((p : ℕ) → is_in p places.new.items
            ≡ (is_in p places.old.items || is_writer p (writer_of self.now slot))) }
    {
        if let Some(used) = self.found(slot) {
            if let Some(writer) = used.writer {
                places.push(writer)?;
            }
        }
        Ok(())
    }

    /// Those that read these slots since they were last written.
    fn push_readers(&self, places: &mut Vec<usize>, slots: &[Slot]) -> Result<(), NoMemory>
        ensures { OnOk result ((p : ℕ) → is_in p places.new.items ≡ (is_in p places.old.items
            || list_any (λ (slot : slot_type). is_in p (readers_of self.now slot)) slots.now)) }
    {
        for slot in slots {
            self.push_each(places, *slot)?;
        }
        Ok(())
    }

    fn push_each(&self, places: &mut Vec<usize>, slot: Slot) -> Result<(), NoMemory>
        ensures { OnOk result ((p : ℕ) → is_in p places.new.items
            ≡ (is_in p places.old.items || is_in p (readers_of self.now slot))) }
    {
        if let Some(used) = self.found(slot) {
            places.extend_from_slice(used.readers.as_slice())?;
        }
        Ok(())
    }

    /// The use of a slot, if it has one.
    fn found(&self, slot: Slot) -> Option<&SlotUse>
        ensures found { unwrap_or (option_copied result) (spec.nobody slot) ≡ spec.use_of self.now slot }
        ensures there { is_some result ≡ true → IsAt self.now slot (spec.place_of self.now slot) }
    {
        let one = self.uses.get(self.place_of(slot))?;
        if one.slot.0 == slot.0 {
            Some(one)
        } else {
            None
        }
    }

    /// Where the use of a slot would stand.
    fn place_of(&self, slot: Slot) -> usize
        ensures { result ≡ spec.place_of self.now slot }
    {
        match self.at.get(usize::from(slot.0)) {
            Some(at) => *at,
            None => 0,
        }
    }
}

/// A number is put at a place of a list, which grows by zeros up to it.
fn put(list: &mut Vec<usize>, place: usize, number: usize) -> Result<(), NoMemory>
    requires { place < 65536 }
    ensures { OnOk result ((n : ℕ) → slice_index_or list.new.items n 0
        ≡ (if place == n then number else slice_index_or list.old.items n 0)) }
{
    fill(list, place + 1)?;
    list[place] = number;
    Ok(())
}

/// A list grows by zeros up to so many.
fn fill(list: &mut Vec<usize>, count: usize) -> Result<(), NoMemory>
    ensures same { (n : ℕ) → slice_index_or list.new.items n 0 ≡ slice_index_or list.old.items n 0 }
    ensures many { OnOk result (count ≤ length list.new.items) }
{
    if list.len() < count {
        list.resize(count, 0)?;
    }
    Ok(())
}
