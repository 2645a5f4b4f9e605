use crate::edits::edit;
use crate::entries::{copies, entries};
use nim_base::{Copied, Seq};
use nim_command::{Edit, Entry, Half, patch_commands};
use nim_lines::{LineFault, halves, number, numbers, parts, push_command, push_entry};
use std::alloc::Global;

/// `half ENTRY; ENTRY ..`: the half with these entries.
pub fn half(alloc: Global, text: &str) -> Result<Half, LineFault> {
    Ok(Half::from_entries(Seq::from_vec(entries(alloc, text)?)))
}

/// `edit EDIT`: the entries of a half after an edit, a line each.
pub fn edit_line(
    alloc: Global,
    half: &mut Half,
    text: &str,
    out: &mut String,
) -> Result<(), LineFault> {
    let change = edit_copied(alloc, text)?;
    half.apply_edit(&change)?;
    push_entries(alloc, out, half.entries())
}

fn edit_copied(alloc: Global, text: &str) -> Result<Edit, LineFault> {
    let change = edit(alloc, text)?;
    Ok(change.copy()?)
}

fn push_entries(alloc: Global, out: &mut String, entries: &[Entry]) -> Result<(), LineFault> {
    for entry in entries {
        push_entry(alloc, out, entry)?;
    }
    Ok(())
}

/// `expand POSITION args A .. versions V ..`: the commands of a half in an instance, a line each.
pub fn expand_line(
    alloc: Global,
    half: &Half,
    text: &str,
    out: &mut String,
) -> Result<(), LineFault> {
    let (head, versions) = parts(text, "versions");
    let (base, args) = parts(head, "args");
    let args = numbers::<i64>(alloc, args)?;
    let versions = numbers::<u64>(alloc, versions)?;
    for command in &half.commands(number::<u64>(base)?, args.as_slice(), versions.as_slice())? {
        push_command(alloc, out, command)?;
    }
    Ok(())
}

/// `patch V ..: COPY; COPY ..`: the commands of a patch with these versions, a line each.
pub fn patch_line(alloc: Global, text: &str, out: &mut String) -> Result<(), LineFault> {
    let (versions, all) = halves(text, ":")?;
    let versions = numbers::<u64>(alloc, versions)?;
    let copies = copies(alloc, all)?;
    for command in &patch_commands(alloc, versions.as_slice(), copies.as_slice())? {
        push_command(alloc, out, command)?;
    }
    Ok(())
}
