ghost use Rattle.std.specs.Prelude.{◌≡◌, ◌≤◌, ◌++◌, ◌∷◌, [], true, length, map, slice_index_or, slice_set, IfOk, OnOk};
ghost use Rattle.std.specs.List.{list_all, list_any};
ghost use Rattle.nim_command.specs.Ruled as ruled;
ghost use Rattle.nim_place.specs.Sound.{IsSound};
ghost use Rattle.nim_template.specs.Again.{HoldAgain};
ghost use Rattle.nim_template.specs.Ascends.{does_ascend};
ghost use Rattle.nim_template.specs.Built as spec;
ghost use Rattle.nim_template.specs.Fits.{is_fit};
ghost use Rattle.nim_template.specs.Given.{InstallsExtend, InstancesExtend};
ghost use Rattle.nim_template.specs.Instance.{LeavesEffect};
ghost use Rattle.nim_template.specs.MainSlots.{AreMainSlots};
ghost use Rattle.nim_template.specs.MayBuild.{MayBuild};
ghost use Rattle.nim_template.specs.Runs.{RunTasks};
ghost use Rattle.nim_template.specs.Tasks.{DoTasks};
ghost use Rattle.nim_template.specs.Walk as walks;
ghost use Rattle.nim_template.specs.Written.{HasEffect};

use crate::ControllerTemplate;
use crate::closing::{closings, push_closings};
use crate::slots::{all_slots, effect_of, needs_of};
use crate::walk::{Walk, home_of, walked};
use nim_base::{Copied, NoMemory, Object, Seq, TaskForm, Worker};
use nim_command::{Entry, Half, WorkerTemplate, entries_by_rule};
use nim_place::Placement;
use std::alloc::Global;

/// The worker template of a block: each task at its home, an object of the block sent on to where a later task of it
/// reads it, and closing copies, behind which each main slot that the block needs at entry has the last version again.
/// `live` has a flag for each worker. Its meaning is `built` of `specs/Built.antt`.
pub fn build_halves(
    alloc: Global,
    template: &ControllerTemplate,
    place: &Placement,
    objects: u16,
    live: &[bool],
) -> Result<WorkerTemplate, NoMemory>
    requires objects { objects ≤ 512 }
    requires workers { length live.now ≤ 16 }
    requires live { list_any (λ flag. flag) live.now ≡ true }
    requires many { length template.now.forms ≤ 1024 }
    requires fit { list_all (is_fit objects) template.now.forms ≡ true }
    ensures built { IfOk result (λ built. built ≡ spec.built place.now objects live.now template.now) }
    ensures ascend { IfOk result (λ built. list_all (does_ascend 0) built.halves ≡ true) }
    ensures needs { IfOk result (λ built. AreMainSlots live.now objects built.preconditions) }
    ensures tasks { IfOk result (λ built. DoTasks place.now live.now objects built) }
    ensures effect { IfOk result (λ built. HasEffect (length live.now) objects built) }
    ensures again { IfOk result (λ built. HoldAgain (length live.now) objects built) }
    ensures left { IfOk result (λ built. LeavesEffect (length live.now) objects built) }
    ensures installs { IfOk result (λ built. InstallsExtend live.now built) }
    ensures instances { IfOk result (λ built. InstancesExtend live.now objects built) }
    ensures sound { IfOk result (λ built. IsSound built) }
    ensures runs { IfOk result (λ built. RunTasks place.now live.now objects built) }
{
    let template = built(alloc, template, place, objects, live)?;
    Ok(template)
}

/// The template, by its definition.
fn built(
    alloc: Global,
    template: &ControllerTemplate,
    place: &Placement,
    objects: u16,
    live: &[bool],
) -> Result<WorkerTemplate, NoMemory>
    requires { MayBuild objects live.now template.now.forms }
    ensures { IfOk result (λ made. made ≡ spec.built place.now objects live.now template.now) }
{
    let block = template.block;
    let mut forms = template.forms.copy()?.into_vec();
    let homes = homes_of(alloc, forms.as_slice(), place, objects, live)?;
    let walk = walked(alloc, &mut forms, place, objects, live)?;
    let forms = Seq::from_vec(forms);
    let workers = live.len() as u16;
    let slots = all_slots(alloc, workers, objects)?;
    let template = ControllerTemplate { block, forms };
    let made = template_of(alloc, template, workers, slots, walk, homes)?;
    Ok(made)
}

/// The homes of a block's tasks.
fn homes_of(
    alloc: Global,
    forms: &[TaskForm],
    place: &Placement,
    objects: u16,
    live: &[bool],
) -> Result<Vec<Worker>, NoMemory>
    requires { MayBuild objects live.now forms.now }
    ensures { IfOk result (λ homes. homes.items ≡ map (walks.home_of place.now objects live.now) forms.now) }
{
    let mut homes = Vec::new(alloc);
    for form in forms {
        homes.push(home_of(place, form, objects, live))?;
    }
    Ok(homes)
}

/// The template that the end of the walk gives, its closing copies behind it.
fn template_of(
    alloc: Global,
    template: ControllerTemplate,
    workers: u16,
    slots: Vec<(Worker, Object)>,
    walk: Walk,
    homes: Vec<Worker>,
) -> Result<WorkerTemplate, NoMemory>
    ensures { IfOk result (λ built. built ≡ spec.template_of template workers slots.items walk homes.items) }
{
    let ControllerTemplate { block, forms } = template;
    let Walk {
        mut offsets,
        needed,
        mut entries,
    } = walk;
    let needs = needs_of(alloc, &needed, slots.as_slice())?;
    let copies = closings(alloc, &mut offsets, needs.as_slice())?;
    push_closings(&mut entries, copies.as_slice())?;
    let halves = Seq::from_vec(all_halves(alloc, workers, entries.into_vec())?);
    let built = halves.copy()?;
    let effect = effect_of(alloc, &offsets, slots.as_slice())?;
    let owners = Vec::from_slice(alloc, homes.as_slice())?;
    Ok(WorkerTemplate {
        block,
        forms,
        halves,
        built,
        preconditions: Seq::from_vec(needs),
        effect: Seq::from_vec(effect),
        homes: Seq::from_vec(homes),
        owners: Seq::from_vec(owners),
        unsent: Seq::new(alloc),
    })
}

/// The halves of so many workers.
fn all_halves(
    alloc: Global,
    workers: u16,
    entries: Vec<(Worker, Entry)>,
) -> Result<Vec<Half>, NoMemory>
    ensures { IfOk result (λ halves. halves.items ≡ spec.all_halves workers entries.items) }
{
    let lists = entries_by_worker(alloc, workers, entries)?;
    halves_of(alloc, lists)
}

/// The half of each worker's entries, by the rule.
fn halves_of(alloc: Global, lists: Vec<Seq<Entry>>) -> Result<Vec<Half>, NoMemory>
    ensures { IfOk result (λ halves. halves.items ≡ map (ruled.entries_by_rule []) lists.items) }
{
    let mut halves = Vec::with_capacity(alloc, lists.len())?;
    for own in lists {
        let entries = entries_by_rule(alloc, own.into_vec())?;
        halves.push(Half::from_entries(Seq::from_vec(entries)))?;
    }
    Ok(halves)
}

/// The entries of each of so many workers, in order, before sets aside; an entry of another worker is dropped.
fn entries_by_worker(
    alloc: Global,
    workers: u16,
    entries: Vec<(Worker, Entry)>,
) -> Result<Vec<Seq<Entry>>, NoMemory>
    ensures { IfOk result (λ lists. lists.items ≡ spec.entries_by_worker workers entries.items) }
{
    let room = entries.len().checked_div(usize::from(workers)).unwrap_or(0);
    let mut lists = no_entries(alloc, workers, room)?;
    for (worker, entry) in entries {
        push_own(&mut lists, worker, entry)?;
    }
    Ok(lists)
}

/// A list without entries for each of so many workers, with room for so many.
fn no_entries(alloc: Global, workers: u16, room: usize) -> Result<Vec<Seq<Entry>>, NoMemory>
    ensures { IfOk result (λ lists. lists.items ≡ spec.entries_by_worker workers []) }
{
    let mut lists = Vec::new(alloc);
    for _number in 0..workers {
        lists.push(Seq::from_vec(Vec::with_capacity(alloc, room)?))?;
    }
    Ok(lists)
}

/// Adds an entry to its worker's list, if the worker has one.
fn push_own(lists: &mut Vec<Seq<Entry>>, worker: Worker, entry: Entry) -> Result<(), NoMemory>
    ensures { OnOk result (lists.new.items
        ≡ slice_set lists.old.items worker.0 (slice_index_or lists.old.items worker.0 [] ++ entry ∷ [])) }
{
    let place = usize::from(worker.0);
    if place < lists.len() {
        lists[place].push(entry)?;
    }
    Ok(())
}
