ghost use Rattle.std.specs.Prelude.{◌≡◌, ◌∷◌, List, Option, true, IfOk, OnOk};
ghost use Rattle.std.specs.Option.{option_to_list};
ghost use Rattle.nim_base.specs.declared.number.Slot.{Slot as slot_number};
ghost use Rattle.nim_command.specs.Waits.{Group as group_type};
ghost use Rattle.nim_store.specs.declared.held.Held.{Held as held_type};
ghost use Rattle.nim_store.specs.Stored.{slot_at};
ghost use Rattle.nim_history.specs.Kept.{kept_by, own_outs};
ghost use Rattle.nim_worker.specs.declared.batch.Work.{Work as work_type};
ghost use Rattle.nim_worker.specs.Chains.{AreWorks};
ghost use Rattle.nim_worker.specs.Inputs as input_spec;
ghost use Rattle.nim_worker.specs.Inputs.{IsIdle, given_back};
ghost use Rattle.nim_worker.specs.Leaves.{IsHeadOf};
ghost use Rattle.nim_worker.specs.Works.{Begun as begun_type};

use crate::Work;
use crate::head::GroupHead;
use crate::inputs::{Inputs, Taken};
use crate::leave::{leave, set};
use nim_base::{NoMemory, Object, Value, Version};
use nim_command::Command;
use nim_history::Out;
use nim_store::{Held, Store};
use std::alloc::Global;

/// Completes the first of the works that are out, given its command, which the queue kept, the value of the frame that
/// it receives, if it receives one, and what is known of its group: performs what wasn't performed, leaves in the slots
/// what the command leaves, and gives what the command gives of its own, and the room of its inputs. The other works
/// are out as before.
pub(crate) fn complete(
    alloc: Global,
    head: GroupHead,
    store: &mut Store,
    mut work: Work,
    command: Command,
    frame: Option<Value>,
) -> Result<(Option<Out>, Box<Inputs>), NoMemory>
    ensures chain { (before : slot_number → Option held_type) (begun : begun_type) (more : List begun_type)
        (works : List work_type) → begun.kind ≡ command.kind
        → AreWorks store.old.shapes before (slot_at store.old) (begun ∷ more) (work ∷ works)
        → OnOk result (AreWorks store.old.shapes (kept_by store.old.shapes frame begun.kind before) (slot_at store.new)
        more works) }
    ensures outs { (before : slot_number → Option held_type) (begun : begun_type) (more : List begun_type)
        (works : List work_type) (group : group_type) → begun.kind ≡ command.kind
        → AreWorks store.old.shapes before (slot_at store.old) (begun ∷ more) (work ∷ works) → IsHeadOf head group
        → IfOk result (λ completed. option_to_list completed.0 ≡ own_outs group begun.kind before) }
    ensures idle { IfOk result (λ completed. IsIdle completed.1.value) }
    ensures shapes { store.new.shapes ≡ store.old.shapes }
{
    work.perform()?;
    let Work {
        mut inputs,
        results,
        ..
    } = work;
    let contents = contents_told(alloc, head.single, inputs.contents.as_slice())?;
    inputs.give_back(store)?;
    let out = leave(alloc, head, store, command.kind, frame, contents, results)?;
    Ok((out, inputs))
}

/// What a Run of a Single read, copied; of another group it isn't told.
fn contents_told(
    alloc: Global,
    single: bool,
    contents: &[(Object, Version)],
) -> Result<Vec<(Object, Version)>, NoMemory>
    ensures { single ≡ true → IfOk result (λ told. told.items ≡ contents.now) }
{
    if single {
        Ok(Vec::from_slice(alloc, contents)?)
    } else {
        Ok(Vec::new(alloc))
    }
}

impl Inputs {
    /// Gives what was taken back to its slots.
    fn give_back(&mut self, store: &mut Store) -> Result<(), NoMemory>
        ensures slots { OnOk result (slot_at store.new
            ≡ given_back self.old.taken.items self.old.values.items (slot_at store.old)) }
        ensures idle { OnOk result (IsIdle self.new) }
        ensures shapes { store.new.shapes ≡ store.old.shapes }
    {
        self.params.clear();
        self.places.clear();
        self.contents.clear();
        self.shapes.clear();
        while let Some(value) = self.values.pop() {
            if let Some(from) = self.taken.pop() {
                set(store, from.slot, held_of(from, value))?;
            }
        }
        Ok(())
    }
}

/// What a slot had, put together again.
fn held_of(taken: Taken, value: Value) -> Option<Held>
    ensures { result ≡ input_spec.held_of taken value }
{
    match taken.content {
        Some((object, version)) => Some(Held {
            object,
            version,
            value,
        }),
        None => None,
    }
}
