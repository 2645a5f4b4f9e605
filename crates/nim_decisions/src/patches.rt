use nim_base::{Short, Slot};
use nim_command::{Command, Kind, WorkerTemplate};
use nim_lines::{LineFault, halves, number, push_count};
use nim_patch::{Patch, PatchCache, PatchCopy, build_patch, failing};
use nim_place::VersionMap;
use std::alloc::Global;

/// `effect BASE`: nothing, and the map takes the effect in; `failing`: how many needs fail, and which; `patch`: the
/// copies; `mend`: nothing, and the map takes in what the copies leave.
pub fn patch_line(
    alloc: Global,
    template: &WorkerTemplate,
    map: &mut VersionMap,
    word: &str,
    text: &str,
    out: &mut String,
) -> Result<(), LineFault> {
    match word {
        "effect" => effect_line(template, map, text),
        "failing" => failing_line(alloc, template, map, out),
        "patch" => push_copies(alloc, out, map, &made(alloc, template, map)?),
        _ => mend(alloc, map, &made(alloc, template, map)?),
    }
}

fn effect_line(
    template: &WorkerTemplate,
    map: &mut VersionMap,
    text: &str,
) -> Result<(), LineFault> {
    map.apply_effect(template.effect.as_slice(), number::<u64>(text)?);
    Ok(())
}

fn failing_line(
    alloc: Global,
    template: &WorkerTemplate,
    map: &VersionMap,
    out: &mut String,
) -> Result<(), LineFault> {
    let mut flags = vec![in alloc; false; template.preconditions.len()]?;
    let count = failing(template, map, flags.as_mut_slice());
    push_flags(alloc, out, count as u64, flags.as_slice())
}

/// How many needs fail, and a flag for each need.
fn push_flags(
    alloc: Global,
    out: &mut String,
    count: u64,
    flags: &[bool],
) -> Result<(), LineFault> {
    push_count(alloc, out, "", count)?;
    out.push_str(" of:")?;
    for flag in flags {
        out.push_str(if *flag { " yes" } else { " no" })?;
    }
    out.push_str("\n")?;
    Ok(())
}

/// The patch for a template whose needs are asked of a map.
pub fn made(
    alloc: Global,
    template: &WorkerTemplate,
    map: &VersionMap,
) -> Result<Patch, LineFault> {
    let mut flags = vec![in alloc; false; template.preconditions.len()]?;
    failing(template, map, flags.as_mut_slice());
    Ok(build_patch(alloc, template, map, flags.as_slice())?)
}

/// Copies, a line each: the number, the object, from where to where, and its version.
fn push_copies(
    alloc: Global,
    out: &mut String,
    map: &VersionMap,
    patch: &Patch,
) -> Result<(), LineFault> {
    for (place, copy) in patch.copies.as_slice().iter().enumerate() {
        push_count(alloc, out, "", place as u64)?;
        push_copy(alloc, out, copy)?;
        push_count(alloc, out, " version ", map.latest(copy.object))?;
        out.push_str("\n")?;
    }
    Ok(())
}

fn push_copy(alloc: Global, out: &mut String, copy: &PatchCopy) -> Result<(), LineFault> {
    push_count(alloc, out, ": ", u64::from(copy.object.0))?;
    push_count(alloc, out, " from ", u64::from(copy.from.0))?;
    push_count(alloc, out, " to ", u64::from(copy.to.0))
}

fn mend(alloc: Global, map: &mut VersionMap, patch: &Patch) -> Result<(), LineFault> {
    for copy in patch.copies.as_slice() {
        let received = received(alloc, map, copy);
        map.apply_command(copy.to, &received);
    }
    Ok(())
}

/// What a copy's receiver does.
fn received(alloc: Global, map: &VersionMap, copy: &PatchCopy) -> Command {
    let slot = Slot(copy.object.0);
    let version = map.latest(copy.object);
    let before = Short::new(alloc);
    Command {
        id: 0,
        kind: Kind::Receive { slot, version },
        before,
    }
}

/// `find PREVIOUS NEXT`, `keep PREVIOUS NEXT`: the number of the patch in the cache, or nothing.
pub fn cache_line(
    alloc: Global,
    patches: &mut PatchCache,
    patch: Patch,
    word: &str,
    text: &str,
    out: &mut String,
) -> Result<(), LineFault> {
    let (previous, next) = halves(text, " ")?;
    let (previous, next) = (number::<u8>(previous)?, number::<u8>(next)?);
    match word {
        "find" => push_found(alloc, out, patches.find(previous, next, &patch)),
        _ => push_found(alloc, out, Some(patches.keep(previous, next, patch)?)),
    }
}

fn push_found(alloc: Global, out: &mut String, found: Option<u8>) -> Result<(), LineFault> {
    match found {
        Some(number) => push_count(alloc, out, "", u64::from(number))?,
        None => out.push_str("nothing")?,
    }
    out.push_str("\n")?;
    Ok(())
}
