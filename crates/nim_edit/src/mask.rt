ghost use Rattle.std.specs.Prelude.{◌≡◌, ◌+◌, ◌*◌, ◌<◌, ◌≤◌, length, map, if◌then◌else◌};
ghost use Rattle.nim_command.specs.Numbers as numbers;
ghost use Rattle.nim_command.specs.Slots.{is_among};
ghost use Rattle.nim_edit.specs.Masks as spec;
ghost use Rattle.nim_template.specs.Written as written;

use nim_base::{Object, Slot, Worker};
use nim_command::{Entry, EntryKind, WorkerTemplate};

/// The mask of a task that moves to a worker: a bit for each of its reads, the first one's lowest, set where the
/// worker's half as it was built leaves the version there in time.
pub(crate) fn mask_of(
    template: &WorkerTemplate,
    task: u16,
    to: Worker,
    reads: &[(Object, u16)],
) -> u8
    requires reads { length reads.now ≤ 8 }
    requires to { to.0 < length template.now.built }
    ensures { result ≡ spec.mask_of (map (spec.is_left template.now task to) reads.now) }
{
    let mut mask = 0;
    let mut at = reads.len();
    while at > 0 {
        at -= 1;
        mask = with_bit(is_left(template, task, to, reads[at]), mask);
    }
    mask
}

/// A mask with one bit more, the lowest.
fn with_bit(set: bool, mask: u8) -> u8
    requires { mask < 128 }
    ensures { result ≡ 2 * mask + (if set then 1 else 0) }
{
    if set { 2 * mask + 1 } else { 2 * mask }
}

/// Whether a worker's half as it was built leaves the version of a read in its main slot, before what is sent on for
/// the task.
fn is_left(template: &WorkerTemplate, task: u16, to: Worker, read: (Object, u16)) -> bool
    requires { to.0 < length template.now.built }
    ensures { result ≡ spec.is_left template.now task to read }
{
    let (object, offset) = read;
    let half = &template.built.as_slice()[usize::from(to.0)];
    let number = 64 * u32::from(task) + 16;
    match last_before(half.entries(), number, Slot(object.0)) {
        Some(last) => last == offset,
        None => offset == 0 && is_needed(template.preconditions.as_slice(), to, object),
    }
}

/// Whether a worker's main slot of an object has to have the version at entry.
fn is_needed(preconditions: &[(Worker, Object)], worker: Worker, object: Object) -> bool
    ensures { result ≡ spec.is_needed preconditions.now worker object }
{
    preconditions
        .iter()
        .any(|need| need.0.0 == worker.0 && need.1.0 == object.0)
}

/// The offset of a slot's last content behind the entries before a number, if one of them writes it.
fn last_before(entries: &[Entry], number: u32, slot: Slot) -> Option<u16>
    ensures { result ≡ written.last_written (spec.entries_before number entries.now) slot }
{
    let mut last = None;
    for entry in entries {
        if entry.id < number {
            last = offset_left(slot, last, entry);
        }
    }
    last
}

/// The offset of a slot's content behind an entry.
fn offset_left(slot: Slot, before: Option<u16>, entry: &Entry) -> Option<u16>
    ensures { result ≡ written.offset_left slot before entry.now.id entry.now.kind }
{
    match &entry.kind {
        EntryKind::Receive { slot: to, offset } if to.0 == slot.0 => Some(*offset),
        EntryKind::Run { writes, .. } if is_written(writes.as_slice(), slot) => {
            Some(offset_after(entry.id / 64))
        }
        _ => before,
    }
}

fn is_written(writes: &[Slot], slot: Slot) -> bool
    ensures { result ≡ is_among writes.now slot }
{
    writes.iter().any(|one| one.0 == slot.0)
}

/// The offset of what a task of a block writes.
fn offset_after(task: u32) -> u16
    ensures { result ≡ numbers.offset_after task }
{
    match u16::try_from(task) {
        Ok(task) => task.saturating_add(1),
        Err(_) => u16::MAX,
    }
}
