ghost use Rattle.std.specs.Prelude.{◌≡◌};
ghost use Rattle.std.specs.List.{list_all};
ghost use Rattle.nim_message.specs.Ranges as spec;

use crate::lengths::body_length;
use crate::{Data, FromWorker, Message, ToWorker};
use nim_base::{Object, Param, Shape, Slot, Value, Version, Worker};
use nim_command::{Command, Edit, Entry, EntryKind, Kind, PatchPart, Spec};

/// The longest body of a frame.
const LONGEST: u64 = 1_048_576;

/// Whether a message has a frame: its numbers are in range, and its body isn't too long. Takes no memory. Its meaning
/// is `is_in_range` of `specs/Ranges.antt`.
pub fn in_range(message: &Message) -> bool
    ensures { result ≡ spec.is_in_range message.now }
{
    has_fields(message) && body_length(message) <= LONGEST
}

fn has_fields(message: &Message) -> bool
    ensures { result ≡ spec.has_fields message.now }
{
    match message {
        Message::Order(order) => is_order(order),
        Message::Report(report) => is_report(report),
        Message::Data(frame) => is_data(frame),
    }
}

fn is_order(order: &ToWorker) -> bool
    ensures { result ≡ spec.is_order order.now }
{
    match order {
        ToWorker::Single { commands, .. } => {
            is_counted(commands.len()) && are_commands(commands.as_slice())
        }
        ToWorker::InstallTemplate { block, entries, .. } => {
            is_block(*block) && entries.len() < 4_294_967_296 && are_entries(entries.as_slice())
        }
        ToWorker::Instantiate {
            block,
            args,
            versions,
            edits,
            ..
        } => {
            is_block(*block)
                && args.len() <= 8
                && is_counted(versions.len())
                && edits.len() <= 4
                && are_edits(edits.as_slice())
        }
        ToWorker::InstallPatch { patch, copies, .. } => {
            is_patch(*patch) && copies.len() <= 8191 && are_parts(copies.as_slice())
        }
        ToWorker::RunPatch {
            patch,
            versions,
            ..
        } => is_patch(*patch) && is_counted(versions.len()),
        ToWorker::Reset {
            worker,
            workers,
            shapes,
            ..
        } => {
            is_worker(*worker)
                && *workers >= 1
                && *workers <= 16
                && is_counted(shapes.len())
                && are_shapes(shapes.as_slice())
        }
        ToWorker::Stop => true,
    }
}

fn is_report(report: &FromWorker) -> bool
    ensures { result ≡ spec.is_report report.now }
{
    match report {
        FromWorker::Value { object, value, .. } => is_object(*object) && is_value(value),
        FromWorker::Ran { reads, .. } => reads.len() <= 8 && are_versions(reads.as_slice()),
        FromWorker::Through { .. } | FromWorker::NoMemory => true,
        FromWorker::PeerDown { peer } => is_worker(*peer),
    }
}

fn is_data(frame: &Data) -> bool
    ensures { result ≡ spec.is_data frame.now }
{
    is_object(frame.object) && is_value(&frame.value)
}

fn is_command(command: &Command) -> bool
    ensures { result ≡ spec.is_command command.now }
{
    is_kind(&command.kind) && is_counted(command.before.len())
}

fn is_kind(kind: &Kind) -> bool
    ensures { result ≡ spec.is_kind kind.now }
{
    match kind {
        Kind::Create { slot, .. } | Kind::Receive { slot, .. } | Kind::Fetch { slot, .. } => {
            is_slot(*slot)
        }
        Kind::Load { slot, value, .. } => is_slot(*slot) && is_value(value),
        Kind::Send { slot, peer, .. } => is_slot(*slot) && is_worker(*peer),
        Kind::Copy { from, to } => is_slot(*from) && is_slot(*to),
        Kind::Run {
            func,
            params,
            reads,
            writes,
            ..
        } => {
            func.has_counts(params.len(), reads.len(), writes.len())
                && are_slots(reads.as_slice())
                && are_slots(writes.as_slice())
        }
    }
}

fn is_entry(entry: &Entry) -> bool
    ensures { result ≡ spec.is_entry entry.now }
{
    is_entry_kind(&entry.kind) && is_counted(entry.before.len())
}

fn is_entry_kind(kind: &EntryKind) -> bool
    ensures { result ≡ spec.is_entry_kind kind.now }
{
    match kind {
        EntryKind::Send { slot, peer, .. } => is_slot(*slot) && is_worker(*peer),
        EntryKind::Receive { slot, offset } => is_slot(*slot) && *offset <= 1024,
        EntryKind::Copy { from, to } => is_slot(*from) && is_slot(*to),
        EntryKind::Run {
            func,
            params,
            reads,
            writes,
        } => {
            func.has_counts(params.len(), reads.len(), writes.len())
                && are_params(params.as_slice())
                && are_slots(reads.as_slice())
                && are_slots(writes.as_slice())
        }
    }
}

fn is_edit(edit: &Edit) -> bool
    ensures { result ≡ spec.is_edit edit.now }
{
    match edit {
        Edit::Away { task, to, spec, .. } => is_task(*task) && is_worker(*to) && is_spec(spec),
        Edit::Here {
            task,
            from,
            spec,
            ..
        } => is_task(*task) && is_worker(*from) && is_spec(spec),
        Edit::Gone { task } => is_task(*task),
        Edit::Home { task, spec } => is_task(*task) && is_spec(spec),
    }
}

fn is_spec(moved: &Spec) -> bool
    ensures { result ≡ spec.is_spec moved.now }
{
    moved
        .func
        .has_counts(moved.params.len(), moved.reads.len(), moved.writes.len())
        && are_params(moved.params.as_slice())
        && are_offset_reads(moved.reads.as_slice())
        && are_objects(moved.writes.as_slice())
}

fn is_offset_read(read: &(Object, u16)) -> bool
    ensures { result ≡ spec.is_offset_read read.now }
{
    is_object(read.0) && read.1 <= 1024
}

fn is_part(part: &PatchPart) -> bool
    ensures { result ≡ spec.is_part part.now }
{
    part.number <= 8191 && is_object(part.object) && is_worker(part.peer)
}

fn are_commands(commands: &[Command]) -> bool
    ensures { result ≡ list_all spec.is_command commands.now }
{
    commands.iter().all(is_command)
}

fn are_entries(entries: &[Entry]) -> bool
    ensures { result ≡ list_all spec.is_entry entries.now }
{
    entries.iter().all(is_entry)
}

fn are_edits(edits: &[Edit]) -> bool
    ensures { result ≡ list_all spec.is_edit edits.now }
{
    edits.iter().all(is_edit)
}

fn are_parts(parts: &[PatchPart]) -> bool
    ensures { result ≡ list_all spec.is_part parts.now }
{
    parts.iter().all(is_part)
}

fn are_shapes(shapes: &[Shape]) -> bool
    ensures { result ≡ list_all spec.is_shape shapes.now }
{
    shapes.iter().all(is_shape)
}

fn are_objects(objects: &[Object]) -> bool
    ensures { result ≡ list_all spec.is_object objects.now }
{
    objects.iter().all(|object| is_object(*object))
}

fn are_offset_reads(reads: &[(Object, u16)]) -> bool
    ensures { result ≡ list_all spec.is_offset_read reads.now }
{
    reads.iter().all(is_offset_read)
}

fn are_versions(reads: &[(Object, Version)]) -> bool
    ensures { result ≡ list_all spec.is_version_read reads.now }
{
    reads.iter().all(|read| is_object(read.0))
}

fn are_slots(slots: &[Slot]) -> bool
    ensures { result ≡ list_all spec.is_slot slots.now }
{
    slots.iter().all(|slot| is_slot(*slot))
}

fn are_params(params: &[Param]) -> bool
    ensures { result ≡ list_all spec.is_param params.now }
{
    params.iter().all(|param| is_param(*param))
}

fn is_param(param: Param) -> bool
    ensures { result ≡ spec.is_param param }
{
    match param {
        Param::Const(_) => true,
        Param::Arg(place) => place < 8,
    }
}

fn is_value(value: &Value) -> bool
    ensures { result ≡ spec.is_value value.now }
{
    are_sizes(value.width(), value.rows())
}

fn is_shape(shape: &Shape) -> bool
    ensures { result ≡ spec.is_shape shape.now }
{
    are_sizes(shape.width, shape.rows)
}

fn are_sizes(width: u32, rows: u32) -> bool
    ensures { result ≡ spec.are_sizes width rows }
{
    width >= 1 && rows <= 65_536 && u64::from(width).saturating_mul(u64::from(rows)) <= 65_536
}

fn is_slot(slot: Slot) -> bool
    ensures { result ≡ spec.is_slot slot }
{
    slot.0 < 1024
}

fn is_object(object: Object) -> bool
    ensures { result ≡ spec.is_object object }
{
    object.0 < 512
}

fn is_worker(worker: Worker) -> bool
    ensures { result ≡ spec.is_worker worker }
{
    worker.0 < 16
}

fn is_task(task: u16) -> bool
    ensures { result ≡ spec.is_task task }
{
    task < 1024
}

fn is_block(block: u8) -> bool
    ensures { result ≡ spec.is_block block }
{
    block < 32
}

fn is_patch(patch: u8) -> bool
    ensures { result ≡ spec.is_patch patch }
{
    patch < 64
}

fn is_counted(items: usize) -> bool
    ensures { result ≡ spec.is_counted items }
{
    items < 65_536
}
