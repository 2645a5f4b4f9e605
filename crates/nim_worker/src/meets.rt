ghost use Rattle.std.specs.Prelude.{◌≡◌, false, ℕ, List, All, is_some};
ghost use Rattle.std.specs.List.{list_any};
ghost use Rattle.std.specs.Option.{option_copied, option_map_or};
ghost use Rattle.nim_command.specs.Slots as slots_spec;
ghost use Rattle.nim_command.specs.Waits.{Group as group_type};
ghost use Rattle.nim_order.specs.Progress.{is_one_of};
ghost use Rattle.nim_queue.specs.Stands.{outstanding_command};
ghost use Rattle.nim_store.specs.declared.key.Key.{Key as key_type};
ghost use Rattle.nim_history.specs.History as history;
ghost use Rattle.nim_history.specs.InTurn.{key_at};
ghost use Rattle.nim_worker.specs.Admitted.{IsAdmitted};
ghost use Rattle.nim_worker.specs.Stands.{tickets_of};
ghost use Rattle.nim_worker.specs.Taken as spec;

use crate::Work;
use crate::admitted::Admitted;
use crate::head::GroupHead;
use nim_base::Slot;
use nim_command::{Command, Kind, object_of};
use nim_plan::is_among;
use nim_store::Key;

/// Whether the command of a ticket touches a slot that one of the works touches, or receives a frame that one of them
/// receives.
pub(crate) fn meets_any(admitted: &Admitted, works: &[Work], ticket: u64) -> bool
    ensures { (groups : List group_type) (ran : List ℕ) → IsAdmitted admitted.now groups ran
        → All (λ earlier. is_one_of ran earlier ≡ false) (tickets_of works.now) → is_one_of ran ticket ≡ false
        → result ≡ list_any (λ earlier. spec.do_meet groups earlier ticket) (tickets_of works.now) }
{
    let command = admitted.command(ticket);
    let key = key_in(admitted, ticket, command);
    for work in works {
        if do_meet(admitted, work.ticket, command, &key) {
            return true;
        }
    }
    false
}

/// Whether the command of a ticket meets this other one, which receives the frame of this key, if any.
fn do_meet(admitted: &Admitted, one: u64, command: Option<&Command>, key: &Option<Key>) -> bool
    ensures { (groups : List group_type) (ran : List ℕ) (other : ℕ) → IsAdmitted admitted.now groups ran
        → option_copied command.entry ≡ outstanding_command groups (is_one_of ran) other → key.now ≡ key_at groups other
        → is_one_of ran one ≡ false → is_one_of ran other ≡ false
        → result ≡ spec.do_meet groups one other }
{
    touch_one_slot(admitted, one, command) || have_one_frame(admitted, one, key)
}

fn touch_one_slot(admitted: &Admitted, one: u64, command: Option<&Command>) -> bool
    ensures { (groups : List group_type) (ran : List ℕ) (other : ℕ) → IsAdmitted admitted.now groups ran
        → option_copied command.entry ≡ outstanding_command groups (is_one_of ran) other
        → is_one_of ran one ≡ false → is_one_of ran other ≡ false
        → result ≡ spec.touch_one_slot groups one other }
{
    match (admitted.command(one), command) {
        (Some(one), Some(other)) => do_share(&one.kind, &other.kind),
        _ => false,
    }
}

fn have_one_frame(admitted: &Admitted, one: u64, key: &Option<Key>) -> bool
    ensures { (groups : List group_type) (ran : List ℕ) (other : ℕ) → IsAdmitted admitted.now groups ran
        → key.now ≡ key_at groups other → is_one_of ran one ≡ false
        → result ≡ spec.have_one_frame groups one other }
{
    match key {
        Some(key) => receives(admitted, one, key),
        None => false,
    }
}

/// Whether the command of a ticket receives the frame of a key.
fn receives(admitted: &Admitted, one: u64, key: &Key) -> bool
    ensures { (groups : List group_type) (ran : List ℕ) → IsAdmitted admitted.now groups ran → is_one_of ran one ≡ false
        → result ≡ option_map_or (λ (a : key_type). spec.is_key a key.now) (key_at groups one) false }
{
    match key_of(admitted, one) {
        Some(one) => is_key(&one, key),
        None => false,
    }
}

fn is_key(one: &Key, other: &Key) -> bool
    ensures { result ≡ spec.is_key one.now other.now }
{
    one.epoch == other.epoch
        && one.instance == other.instance
        && one.entry == other.entry
        && one.object.0 == other.object.0
        && one.version == other.version
}

/// The key of the frame that the command of a ticket receives, if it receives one.
pub(crate) fn key_of(admitted: &Admitted, ticket: u64) -> Option<Key>
    ensures { (groups : List group_type) (ran : List ℕ) → IsAdmitted admitted.now groups ran
        → is_one_of ran ticket ≡ false → result ≡ key_at groups ticket }
{
    key_in(admitted, ticket, admitted.command(ticket))
}

/// The key of the frame that this command of a ticket receives, if it receives one.
fn key_in(admitted: &Admitted, ticket: u64, command: Option<&Command>) -> Option<Key>
    ensures { (groups : List group_type) (ran : List ℕ) → IsAdmitted admitted.now groups ran
        → option_copied command.entry ≡ outstanding_command groups (is_one_of ran) ticket
        → is_one_of ran ticket ≡ false → result ≡ key_at groups ticket }
{
    let command = command?;
    if !is_receive(&command.kind) {
        return None;
    }
    key_received(admitted.head(ticket)?, command.id, &command.kind)
}

/// Whether a command receives a frame.
fn is_receive(kind: &Kind) -> bool
    ensures { (group : group_type) (number : ℕ) → result ≡ is_some (history.key_received group number kind.now) }
{
    match kind {
        Kind::Receive { .. } => true,
        _ => false,
    }
}

/// The key of the frame that a command of a group receives, if it receives one.
pub(crate) fn key_received(head: GroupHead, number: u32, kind: &Kind) -> Option<Key>
    ensures { (group : group_type) → head.epoch ≡ group.epoch → head.instance ≡ group.instance
        → result ≡ history.key_received group number kind.now }
{
    match kind {
        Kind::Receive { slot, version } => Some(Key {
            epoch: head.epoch,
            instance: head.instance,
            entry: number,
            object: object_of(*slot),
            version: *version,
        }),
        _ => None,
    }
}

/// Whether two commands touch one slot.
fn do_share(one: &Kind, other: &Kind) -> bool
    ensures { result ≡ spec.do_share one.now other.now }
{
    is_one_touched(one.reads(), other) || is_one_touched(one.writes(), other)
}

fn is_one_touched(slots: &[Slot], kind: &Kind) -> bool
    ensures { result ≡ list_any (slots_spec.does_touch kind.now) slots.now }
{
    slots.iter().any(|slot| is_among(kind.reads(), *slot) || is_among(kind.writes(), *slot))
}
