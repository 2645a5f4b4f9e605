ghost use Rattle.std.specs.Prelude.{◌≡◌, ◌<◌};
ghost use Rattle.nim_command.specs.Numbers as spec;

use nim_base::{Object, Slot};

/// From this many on, slots are scratch slots of the same objects.
pub(crate) const SLOTS: u16 = 512;

/// The number of a task's entry, by its phase and the index of its read or write. It is `entry_number` of
/// `specs/Numbers.antt`.
pub fn entry_number(task: u16, phase: u32, index: usize) -> u32
    requires { phase < 8 }
    ensures { result ≡ spec.entry_number task phase index }
{
    let first = 64 * u32::from(task) + 8 * phase;
    match u32::try_from(index) {
        Ok(index) => first.saturating_add(index),
        Err(_) => u32::MAX,
    }
}

/// The task that an entry is of.
pub(crate) fn task_of(number: u32) -> u32
    ensures { result ≡ spec.task_of number }
{
    number / 64
}

/// The phase that an entry is of.
pub(crate) fn phase_of(number: u32) -> u32
    ensures { result ≡ spec.phase_of number }
{
    number % 64 / 8
}

/// The number of a patch's copy, at both its ends.
pub(crate) fn patch_number(copy: u16) -> u32
    ensures { result ≡ spec.patch_number copy }
{
    131_072 + u32::from(copy)
}

/// The version at an offset from the first position of a block, and the position of one of its tasks.
pub(crate) fn counted_from(base: u64, more: u64) -> u64
    ensures { result ≡ spec.counted_from base more }
{
    base.saturating_add(more)
}

/// The offset of what a task of a block writes.
pub(crate) fn offset_after(task: u16) -> u16
    ensures { result ≡ spec.offset_after task }
{
    task.saturating_add(1)
}

pub(crate) fn main_slot(object: Object) -> Slot
    ensures { result ≡ spec.main_slot object }
{
    Slot(object.0)
}

pub(crate) fn scratch_slot(object: Object) -> Slot
    ensures { result ≡ spec.scratch_slot object }
{
    Slot(object.0.saturating_add(SLOTS))
}
