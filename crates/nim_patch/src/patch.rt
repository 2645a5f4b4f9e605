ghost use Rattle.std.specs.Prelude.{◌≡◌, ◌≤◌, Bool, ℕ, List, length, IfOk};
ghost use Rattle.nim_command.specs.declared.command.Command.{Command};
ghost use Rattle.nim_base.specs.declared.number.Worker.{Worker as worker_type};
ghost use Rattle.nim_patch.specs.Given.{PatchInstallsExtend, PatchRunsExtend};
ghost use Rattle.nim_patch.specs.Mends.{AreSourced, Mends};
ghost use Rattle.nim_patch.specs.Patches as spec;
ghost use Rattle.nim_place.specs.Stands.{MapStands};
ghost use Rattle.nim_template.specs.MainSlots.{AreMainSlots};

use nim_base::{NoMemory, Object, Seq, Worker};
use nim_command::WorkerTemplate;
use nim_place::VersionMap;
use std::alloc::Global;

/// A copy of an object's latest version, from one worker's main slot to another's.
#[derive(Clone, Copy, Debug, PartialEq, Eq)]
pub struct PatchCopy {
    pub from: Worker,
    pub to: Worker,
    pub object: Object,
}

/// The copies that make a template's preconditions hold. A copy's number is its place.
#[derive(Debug, Drop)]
pub struct Patch {
    pub copies: Seq<PatchCopy>,
}

/// Flags the preconditions of a template whose main slot doesn't hold the latest version of its object, and tells how
/// many these are. `flags` has a flag for each precondition. Takes no memory.
pub fn failing(template: &WorkerTemplate, map: &VersionMap, flags: &mut [bool]) -> usize
    requires { length flags.old ≡ length template.now.preconditions }
    ensures flags { flags.new ≡ spec.flags_of map.now template.now.preconditions }
    ensures count { result ≡ spec.failing_in map.now template.now.preconditions }
{
    let preconditions = template.preconditions.as_slice();
    let mut count = 0;
    for (at, precondition) in preconditions.iter().enumerate() {
        let failed = fails(map, precondition);
        flags[at] = failed;
        if failed {
            count += 1;
        }
    }
    count
}

/// The patch for the preconditions that `failing` flagged: in their order, a copy for each from the lowest worker whose
/// main slot holds the latest version. Its meaning is `patch_copies` of `specs/Patches.antt`; one whose object no
/// worker holds gets no copy.
pub fn build_patch(
    alloc: Global,
    template: &WorkerTemplate,
    map: &VersionMap,
    flags: &[bool],
) -> Result<Patch, NoMemory>
    requires { flags.now ≡ spec.flags_of map.now template.now.preconditions }
    ensures copies { IfOk result (λ patch. patch.copies ≡ spec.patch_copies map.now template.now.preconditions) }
    ensures few { IfOk result (λ patch. length patch.copies ≤ length template.now.preconditions) }
    ensures sources { IfOk result (λ patch. AreSourced map.now patch.copies) }
    ensures mends { (given : List (worker_type × Command)) → MapStands given map.now
        → IfOk result (λ patch. Mends map.now template.now.preconditions patch.copies) }
    ensures installs { (live : List Bool) → IfOk result (λ patch. PatchInstallsExtend live patch.copies) }
    ensures runs { (live : List Bool) (objects : ℕ) → AreMainSlots live objects template.now.preconditions
        → IfOk result (λ patch. PatchRunsExtend live objects template.now.preconditions patch.copies map.now) }
{
    let preconditions = template.preconditions.as_slice();
    let mut copies = Vec::new(alloc);
    for (at, precondition) in preconditions.iter().enumerate() {
        if let Some(copy) = copy_of(map, flags[at], precondition) {
            copies.push(copy)?;
        }
    }
    Ok(Patch {
        copies: Seq::from_vec(copies),
    })
}

/// Whether a main slot doesn't hold the latest version of its object.
fn fails(map: &VersionMap, precondition: &(Worker, Object)) -> bool
    ensures { result ≡ spec.fails map.now precondition.now }
{
    !map.is_current(precondition.1, precondition.0)
}

/// The copy for a precondition, where it fails.
fn copy_of(map: &VersionMap, failed: bool, precondition: &(Worker, Object)) -> Option<PatchCopy>
    requires { failed ≡ spec.fails map.now precondition.now }
    ensures { result ≡ spec.copy_of map.now precondition.now }
{
    if !failed {
        return None;
    }
    let (to, object) = *precondition;
    match map.holder(object) {
        Some(from) => Some(PatchCopy { from, to, object }),
        None => None,
    }
}
