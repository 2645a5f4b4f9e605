ghost use Rattle.std.specs.Prelude.{◌≡◌, ◌≤◌, ◌∷◌, [], length, IfOk, OnOk};
ghost use Rattle.std.specs.List.{fold};
ghost use Rattle.nim_command.specs.Edits as spec;

use crate::before::entries_by_rule;
use crate::moved::put_by;
use crate::numbers::{phase_of, task_of};
use crate::{Edit, Entry};
use nim_base::{Copied, NoMemory};
use std::alloc::Global;

/// The entries of a half after an edit, with the before sets of the rule.
pub(crate) fn edited(alloc: Global, entries: &[Entry], edit: &Edit) -> Result<Vec<Entry>, NoMemory>
    ensures { IfOk result (λ after. after.items ≡ spec.edited edit.now entries.now) }
{
    let mut after = kept(alloc, entries, edit)?;
    let put = put_by(alloc, edit)?;
    put_all(&mut after, put)?;
    entries_by_rule(alloc, after)
}

/// Those that the edit doesn't take away.
fn kept(alloc: Global, entries: &[Entry], edit: &Edit) -> Result<Vec<Entry>, NoMemory>
    ensures { IfOk result (λ rest. rest.items ≡ spec.entries_kept edit.now entries.now) }
{
    let mut rest = Vec::new(alloc);
    for entry in entries {
        if !is_taken(edit, entry) {
            rest.push(entry.copy()?)?;
        }
    }
    Ok(rest)
}

/// Puts entries in, each before the first of a greater number.
fn put_all(entries: &mut Vec<Entry>, more: Vec<Entry>) -> Result<(), NoMemory>
    ensures { OnOk result (entries.new.items ≡ fold spec.with_entry entries.old.items more.items) }
{
    for entry in more {
        put(entries, entry)?;
    }
    Ok(())
}

fn put(entries: &mut Vec<Entry>, entry: Entry) -> Result<(), NoMemory>
    ensures { OnOk result (entries.new.items ≡ spec.with_entry entries.old.items entry) }
{
    let place = place_for(entries.as_slice(), entry.id);
    entries.insert(place, entry)?;
    Ok(())
}

/// The place of the first entry of a greater number.
fn place_for(entries: &[Entry], number: u32) -> usize
    ensures place { result ≡ spec.place_for entries.now number }
    ensures within { result ≤ length entries.now }
{
    let mut place = 0;
    while place < entries.len() && entries[place].id <= number {
        place += 1;
    }
    place
}

/// Whether an edit takes an entry away.
fn is_taken(edit: &Edit, entry: &Entry) -> bool
    ensures { result ≡ spec.is_taken edit.now entry.now }
{
    match edit {
        Edit::Away { task, .. } | Edit::Home { task, .. } => is_home_end(*task, entry.id),
        Edit::Here { task, .. } | Edit::Gone { task } => is_owner_end(*task, entry.id),
    }
}

/// Whether a number is that of what a home sends on, runs or takes back.
fn is_home_end(task: u16, number: u32) -> bool
    ensures { result ≡ spec.is_of_number task (2 ∷ 4 ∷ 6 ∷ []) number }
{
    let phase = phase_of(number);
    task_of(number) == u32::from(task) && (phase == 2 || phase == 4 || phase == 6)
}

/// Whether a number is that of what an owner takes, runs or sends back.
fn is_owner_end(task: u16, number: u32) -> bool
    ensures { result ≡ spec.is_of_number task (3 ∷ 4 ∷ 5 ∷ []) number }
{
    let phase = phase_of(number);
    task_of(number) == u32::from(task) && (phase == 3 || phase == 4 || phase == 5)
}
