ghost use Rattle.std.specs.Prelude.{◌≡◌, ◌++◌, IfOk, OnOk};
ghost use Rattle.nim_template.specs.Built as spec;

use crate::entry::offset_for;
use nim_base::{NoMemory, Object, Slot, Worker};
use nim_place::VersionMap;
use std::alloc::Global;

/// The main slots of all workers, worker by worker.
pub(crate) fn all_slots(
    alloc: Global,
    workers: u16,
    objects: u16,
) -> Result<Vec<(Worker, Object)>, NoMemory>
    ensures { IfOk result (λ slots. slots.items ≡ spec.all_slots workers objects) }
{
    let mut slots = Vec::new(alloc);
    for number in 0..workers {
        push_slots(&mut slots, Worker(number), objects)?;
    }
    Ok(slots)
}

/// Adds the main slots of a worker.
fn push_slots(
    slots: &mut Vec<(Worker, Object)>,
    worker: Worker,
    objects: u16,
) -> Result<(), NoMemory>
    ensures { OnOk result (slots.new.items ≡ slots.old.items ++ spec.slots_of worker objects) }
{
    for number in 0..objects {
        slots.push((worker, Object(number)))?;
    }
    Ok(())
}

/// Those of the slots that have to have the version at entry.
pub(crate) fn needs_of(
    alloc: Global,
    needed: &VersionMap,
    slots: &[(Worker, Object)],
) -> Result<Vec<(Worker, Object)>, NoMemory>
    ensures { IfOk result (λ needs. needs.items ≡ spec.needs_of needed.now slots.now) }
{
    let needs = slots
        .iter()
        .filter(|slot| needed.is_current(slot.1, slot.0))
        .copied()
        .collect(alloc)?;
    Ok(needs)
}

/// Those of the slots that a task of the block wrote, each with the offset that it has in the end.
pub(crate) fn effect_of(
    alloc: Global,
    offsets: &VersionMap,
    slots: &[(Worker, Object)],
) -> Result<Vec<(Worker, Slot, u16)>, NoMemory>
    ensures { IfOk result (λ effect. effect.items ≡ spec.effect_of offsets.now slots.now) }
{
    let mut effect = Vec::new(alloc);
    for slot in slots {
        push_effect(&mut effect, offsets, *slot)?;
    }
    Ok(effect)
}

/// Adds what a slot has in the end, if a task of the block wrote it.
fn push_effect(
    effect: &mut Vec<(Worker, Slot, u16)>,
    offsets: &VersionMap,
    slot: (Worker, Object),
) -> Result<(), NoMemory>
    ensures { OnOk result (effect.new.items ≡ effect.old.items ++ spec.effect_here offsets.now slot) }
{
    let (worker, object) = slot;
    let main = Slot(object.0);
    if let Some(offset) = offsets.held(worker, main) {
        if offset != 0 {
            effect.push((worker, main, offset_for(offset)))?;
        }
    }
    Ok(())
}
