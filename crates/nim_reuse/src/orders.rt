ghost use Rattle.std.specs.Prelude as words;
ghost use Rattle.std.specs.Prelude.{◌≡◌, ◌≤◌, ◌++◌, [], flat_map, length, IfOk, OnOk};
ghost use Rattle.nim_command.specs.declared.entry.Entry.{Entry as entry_type};
ghost use Rattle.nim_message.specs.declared.order.ToWorker.{ToWorker as order_type};
ghost use Rattle.nim_message.specs.declared.order.ToWorker.TheVariants.{Instantiate as order_instantiate};
ghost use Rattle.nim_patch.specs.Given as patches;
ghost use Rattle.nim_patch.specs.Parts as parts;
ghost use Rattle.nim_place.specs.Directed.{directed, for_worker};
ghost use Rattle.nim_place.specs.Sound.{version_named};
ghost use Rattle.nim_place.specs.Versions.{latest_of};
ghost use Rattle.nim_reuse.specs.Reuse as reuses;
ghost use Rattle.nim_template.specs.Given as templates;
ghost use Rattle.nim_template.specs.Instance.{half_of};

use crate::{InstanceAt, Patched, Ready};
use nim_base::{Epoch, NoMemory, Object, Seq, Version, Worker, copies};
use nim_command::{PatchPart, WorkerTemplate};
use nim_message::ToWorker;
use nim_patch::PatchCopy;
use nim_place::VersionMap;
use std::alloc::Global;

/// Gives each worker its half of a template, if the template is new.
pub(crate) fn push_new(
    alloc: Global,
    orders: &mut Vec<(Worker, ToWorker)>,
    workers: u16,
    is_new: bool,
    epoch: Epoch,
    template: &WorkerTemplate,
) -> Result<(), NoMemory>
    ensures { OnOk result (orders.new.items
        ≡ orders.old.items ++ directed workers (reuses.template_installs is_new epoch template.now)) }
{
    if is_new {
        push_installs(alloc, orders, workers, epoch, template)
    } else {
        Ok(())
    }
}

/// Gives each worker its half of a template, if it has entries.
fn push_installs(
    alloc: Global,
    orders: &mut Vec<(Worker, ToWorker)>,
    workers: u16,
    epoch: Epoch,
    template: &WorkerTemplate,
) -> Result<(), NoMemory>
    ensures { OnOk result (orders.new.items
        ≡ orders.old.items ++ directed workers (templates.installs_of epoch template.now)) }
{
    for number in 0..workers {
        push_install(alloc, orders, epoch, template, Worker(number))?;
    }
    Ok(())
}

/// Gives a worker its half, if it has entries.
fn push_install(
    alloc: Global,
    orders: &mut Vec<(Worker, ToWorker)>,
    epoch: Epoch,
    template: &WorkerTemplate,
    worker: Worker,
) -> Result<(), NoMemory>
    ensures { OnOk result (orders.new.items
        ≡ orders.old.items ++ for_worker (templates.installs_of epoch template.now) worker.0) }
{
    let Some(half) = template.halves.as_slice().get(usize::from(worker.0)) else {
        return Ok(());
    };
    if half.entries().is_empty() {
        return Ok(());
    }
    let order = ToWorker::InstallTemplate {
        epoch,
        block: template.block,
        entries: copies(alloc, half.entries())?,
    };
    Ok(orders.push((worker, order))?)
}

/// Gives the orders of a patch: its parts, if it was made, and its run.
pub(crate) fn push_patch(
    alloc: Global,
    orders: &mut Vec<(Worker, ToWorker)>,
    workers: u16,
    at: &InstanceAt,
    patched: Patched,
    copies: &[PatchCopy],
    map: &VersionMap,
) -> Result<(), NoMemory>
    requires { length copies.now ≤ 65535 }
    ensures { OnOk result (orders.new.items
        ≡ orders.old.items ++ reuses.patch_orders workers at.now patched copies.now map.now) }
{
    match patched {
        Patched::Not => Ok(()),
        Patched::Repeated(number) => push_patch_runs(
            alloc, orders, workers, at, number, copies, map,
        ),
        Patched::Made(number) => {
            push_patch_installs(alloc, orders, workers, at.epoch, number, copies)?;
            push_patch_runs(alloc, orders, workers, at, number, copies, map)
        }
    }
}

/// Gives each worker its ends of a patch's copies under a number, if it has any.
fn push_patch_installs(
    alloc: Global,
    orders: &mut Vec<(Worker, ToWorker)>,
    workers: u16,
    epoch: Epoch,
    patch: u8,
    copies: &[PatchCopy],
) -> Result<(), NoMemory>
    requires { length copies.now ≤ 65535 }
    ensures { OnOk result (orders.new.items
        ≡ orders.old.items ++ directed workers (patches.patch_installs_of epoch patch copies.now)) }
{
    for number in 0..workers {
        let parts = parts_of(alloc, copies, Worker(number))?;
        push_patch_install(orders, epoch, patch, Worker(number), parts)?;
    }
    Ok(())
}

/// Gives a worker its ends, if it has any.
fn push_patch_install(
    orders: &mut Vec<(Worker, ToWorker)>,
    epoch: Epoch,
    patch: u8,
    worker: Worker,
    parts: Vec<PatchPart>,
) -> Result<(), NoMemory>
    ensures { OnOk result (orders.new.items
        ≡ orders.old.items ++ words.map (λ (order : order_type).
        (worker, order)) (patches.install_parts epoch patch parts.items)) }
{
    if parts.is_empty() {
        return Ok(());
    }
    let order = ToWorker::InstallPatch {
        epoch,
        patch,
        copies: Seq::from_vec(parts),
    };
    Ok(orders.push((worker, order))?)
}

/// Asks each worker that has ends of a patch's copies to run them.
fn push_patch_runs(
    alloc: Global,
    orders: &mut Vec<(Worker, ToWorker)>,
    workers: u16,
    at: &InstanceAt,
    patch: u8,
    copies: &[PatchCopy],
    map: &VersionMap,
) -> Result<(), NoMemory>
    requires { length copies.now ≤ 65535 }
    ensures { OnOk result (orders.new.items ≡ orders.old.items
        ++ directed workers (patches.patch_runs_of at.now.epoch at.now.instance patch copies.now map.now)) }
{
    for number in 0..workers {
        let parts = parts_of(alloc, copies, Worker(number))?;
        push_patch_run(alloc, orders, at, patch, Worker(number), parts, map)?;
    }
    Ok(())
}

/// Asks a worker to run its ends, if it has any.
fn push_patch_run(
    alloc: Global,
    orders: &mut Vec<(Worker, ToWorker)>,
    at: &InstanceAt,
    patch: u8,
    worker: Worker,
    parts: Vec<PatchPart>,
    map: &VersionMap,
) -> Result<(), NoMemory>
    ensures { OnOk result (orders.new.items ≡ orders.old.items ++ words.map (λ (order : order_type). (worker, order))
        (patches.run_parts at.now.epoch at.now.instance patch map.now parts.items)) }
{
    if parts.is_empty() {
        return Ok(());
    }
    let order = ToWorker::RunPatch {
        epoch: at.epoch,
        instance: at.instance,
        patch,
        versions: Seq::from_vec(versions_taken(alloc, parts.as_slice(), map)?),
    };
    Ok(orders.push((worker, order))?)
}

/// A worker's ends of copies, in their order.
fn parts_of(alloc: Global, copies: &[PatchCopy], worker: Worker) -> Result<Vec<PatchPart>, NoMemory>
    requires { length copies.now ≤ 65535 }
    ensures { IfOk result (λ made. made.items ≡ parts.patch_parts_of copies.now worker) }
{
    let mut made = Vec::new(alloc);
    for (at, copy) in copies.iter().enumerate() {
        push_parts(&mut made, at as u16, copy, worker)?;
    }
    Ok(made)
}

/// What a worker has of one copy.
fn push_parts(
    made: &mut Vec<PatchPart>,
    number: u16,
    copy: &PatchCopy,
    worker: Worker,
) -> Result<(), NoMemory>
    ensures { OnOk result (made.new.items ≡ made.old.items ++ parts.copy_parts number copy.now worker) }
{
    if copy.from.0 == worker.0 {
        made.push(PatchPart {
            number,
            receives: false,
            object: copy.object,
            peer: copy.to,
        })?;
    }
    if copy.to.0 == worker.0 {
        made.push(PatchPart {
            number,
            receives: true,
            object: copy.object,
            peer: copy.from,
        })?;
    }
    Ok(())
}

/// The latest versions of what ends receive.
fn versions_taken(
    alloc: Global,
    ends: &[PatchPart],
    map: &VersionMap,
) -> Result<Vec<Version>, NoMemory>
    ensures { IfOk result (λ versions. versions.items ≡ parts.versions_taken map.now ends.now) }
{
    let mut versions = Vec::new(alloc);
    for end in ends {
        if end.receives {
            versions.push(map.latest(end.object))?;
        }
    }
    Ok(versions)
}

/// Asks each worker whose half has entries for the instance.
pub(crate) fn push_instances(
    alloc: Global,
    orders: &mut Vec<(Worker, ToWorker)>,
    workers: u16,
    at: &InstanceAt,
    args: &[i64],
    map: &VersionMap,
    ready: &Ready,
) -> Result<(), NoMemory>
    ensures { OnOk result (orders.new.items ≡ orders.old.items ++ directed workers
        (templates.instances_of at.now.epoch at.now.instance ready.now at.now.base args.now map.now)) }
{
    for number in 0..workers {
        push_instance(alloc, orders, at, args, map, ready, Worker(number))?;
    }
    Ok(())
}

/// Asks a worker for the instance, if its half has entries.
fn push_instance(
    alloc: Global,
    orders: &mut Vec<(Worker, ToWorker)>,
    at: &InstanceAt,
    args: &[i64],
    map: &VersionMap,
    ready: &Ready,
    worker: Worker,
) -> Result<(), NoMemory>
    ensures { OnOk result (orders.new.items ≡ orders.old.items ++ for_worker
        (templates.instances_of at.now.epoch at.now.instance ready.now at.now.base args.now map.now) worker.0) }
{
    if ready.half(worker).is_empty() {
        return Ok(());
    }
    let order = instance(alloc, at, args, map, ready, worker)?;
    Ok(orders.push((worker, order))?)
}

/// The order that asks a worker for the instance.
fn instance(
    alloc: Global,
    at: &InstanceAt,
    args: &[i64],
    map: &VersionMap,
    ready: &Ready,
    worker: Worker,
) -> Result<ToWorker, NoMemory>
    ensures { let versions = flat_map (λ (e : entry_type). version_named (latest_of map.now) e.kind)
        (half_of ready.now worker.0) in
        IfOk result (λ order. order
        ≡ order_instantiate at.now.epoch at.now.instance ready.now.block at.now.base args.now
        versions []) }
{
    Ok(ToWorker::Instantiate {
        epoch: at.epoch,
        instance: at.instance,
        block: ready.block(),
        base: at.base,
        args: Seq::from_vec(Vec::from_slice(alloc, args)?),
        versions: Seq::from_vec(versions_of(alloc, ready.received(worker), map)?),
        edits: Seq::new(alloc),
    })
}

/// The latest versions of objects.
fn versions_of(
    alloc: Global,
    objects: &[Object],
    map: &VersionMap,
) -> Result<Vec<Version>, NoMemory>
    ensures { IfOk result (λ versions. versions.items ≡ words.map (latest_of map.now) objects.now) }
{
    let mut versions = Vec::new(alloc);
    for object in objects {
        versions.push(map.latest(*object))?;
    }
    Ok(versions)
}
