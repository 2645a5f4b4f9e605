ghost use Rattle.std.specs.Prelude.{◌≡◌, ◌<◌, ◌||◌, length, map, not, IfOk};
ghost use Rattle.std.specs.List.{list_all, list_any, range_with_len};
ghost use Rattle.nim_command.specs.Slots.{does_touch, does_write};
ghost use Rattle.nim_command.specs.Covered as spec;
ghost use Rattle.nim_plan.specs.Reached as table;

use crate::slots;
use nim_base::{NoMemory, Seq, Slot};
use nim_command::{Command, Kind};
use std::alloc::Global;

/// Whether the waits of commands keep every conflict in order; a command's numbers are places of earlier ones. Its
/// meaning is `is_covered` of `specs/Covered.antt` of `nim_command`.
pub fn covered(alloc: Global, commands: &[Command]) -> Result<bool, NoMemory>
    ensures { IfOk result (λ covered. covered ≡ spec.is_covered commands.now) }
{
    let mut rows = Vec::new(alloc);
    for later in 0..commands.len() {
        let row = reached(alloc, commands, rows.as_slice(), later)?;
        if !keeps_order(commands, row.as_slice(), later) {
            return Ok(false);
        }
        rows.push(row)?;
    }
    Ok(true)
}

/// Of each earlier place, whether it is reached from the one at `later`, by what is reached from earlier ones.
fn reached(
    alloc: Global,
    commands: &[Command],
    rows: &[Seq<bool>],
    later: usize,
) -> Result<Seq<bool>, NoMemory>
    requires later { later < length commands.now }
    requires rows { rows.now ≡ map (table.row_of commands.now) (range_with_len 0 later) }
    ensures { IfOk result (λ row. row ≡ table.row_of commands.now later) }
{
    let mut row = Seq::new(alloc);
    for earlier in 0..later {
        row.push(is_reached(&commands[later], rows, later, earlier))?;
    }
    Ok(row)
}

/// Whether a wait of a command leads to an earlier place.
fn is_reached(command: &Command, rows: &[Seq<bool>], later: usize, earlier: usize) -> bool
    ensures { result ≡ list_any (table.leads_to rows.now later earlier) command.now.before }
{
    command
        .before
        .as_slice()
        .iter()
        .any(|place| leads_to(rows, later, earlier, *place as usize))
}

fn leads_to(rows: &[Seq<bool>], later: usize, earlier: usize, place: usize) -> bool
    ensures { result ≡ table.leads_to rows.now later earlier place }
{
    place < later && (place == earlier || is_marked(rows, place, earlier))
}

fn is_marked(rows: &[Seq<bool>], place: usize, earlier: usize) -> bool
    ensures { result ≡ table.is_marked rows.now place earlier }
{
    match rows.get(place) {
        Some(row) => match row.as_slice().get(earlier) {
            Some(reached) => *reached,
            None => false,
        },
        None => false,
    }
}

/// Whether the command at `later` comes behind each earlier one that it conflicts with.
fn keeps_order(commands: &[Command], row: &[bool], later: usize) -> bool
    requires later { later < length commands.now }
    requires row { row.now ≡ table.row_of commands.now later }
    ensures { result ≡ list_all (spec.is_kept_in_order commands.now later) (range_with_len 0 later) }
{
    for earlier in 0..later {
        if !is_kept(&commands[earlier].kind, &commands[later].kind, row[earlier]) {
            return false;
        }
    }
    true
}

fn is_kept(earlier: &Kind, later: &Kind, reached: bool) -> bool
    ensures { result ≡ (not (spec.do_conflict earlier.now later.now) || reached) }
{
    !do_conflict(earlier, later) || reached
}

/// Whether two commands touch one slot, and one of them writes it.
fn do_conflict(earlier: &Kind, later: &Kind) -> bool
    ensures { result ≡ spec.do_conflict earlier.now later.now }
{
    touches_any(later, earlier.writes()) || writes_any(later, earlier.reads())
}

fn touches_any(kind: &Kind, slots: &[Slot]) -> bool
    ensures { result ≡ list_any (does_touch kind.now) slots.now }
{
    slots.iter().any(|slot| slots::does_touch(kind, *slot))
}

fn writes_any(kind: &Kind, slots: &[Slot]) -> bool
    ensures { result ≡ list_any (does_write kind.now) slots.now }
{
    slots.iter().any(|slot| slots::does_write(kind, *slot))
}
