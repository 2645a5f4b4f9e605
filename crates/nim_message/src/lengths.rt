ghost use Rattle.std.specs.Prelude.{◌≡◌, ℕ, ◌+◌, map, sum};
ghost use Rattle.nim_message.specs.Lengths as spec;
ghost use Rattle.nim_message.specs.Lengths.{capped, list_bytes, value_bytes};

use crate::{FromWorker, Message, ToWorker};
use nim_base::{Param, Value};
use nim_command::{Command, Edit, Entry, EntryKind, Kind, Spec};

/// How many bytes the frame of an order takes, its length number with it; the greatest number where it would be more.
/// Takes no memory. Its meaning is `order_length_of` of `specs/Lengths.antt`.
pub fn order_length(order: &ToWorker) -> u64
    ensures { result ≡ spec.order_length_of order.now }
{
    let body = order_body(order);
    number_bytes(body).saturating_add(body)
}

/// The same of a report. Its meaning is `report_length_of` of `specs/Lengths.antt`.
pub fn report_length(report: &FromWorker) -> u64
    ensures { result ≡ spec.report_length_of report.now }
{
    let body = report_body(report);
    number_bytes(body).saturating_add(body)
}

/// The bytes of a message's body.
pub(crate) fn body_length(message: &Message) -> u64
    ensures { result ≡ capped (spec.message_body message.now) }
{
    match message {
        Message::Order(order) => order_body(order),
        Message::Report(report) => report_body(report),
        Message::Data(frame) => plus(23, value_length(&frame.value)),
    }
}

/// The bytes of a length number, seven bits a byte.
fn number_bytes(number: u64) -> u64
    ensures { result ≡ spec.number_bytes number }
{
    match number {
        0..0x80 => 1,
        0x80..0x4000 => 2,
        0x4000..0x20_0000 => 3,
        0x20_0000..0x1000_0000 => 4,
        0x1000_0000..0x8_0000_0000 => 5,
        0x8_0000_0000..0x400_0000_0000 => 6,
        0x400_0000_0000..0x2_0000_0000_0000 => 7,
        0x2_0000_0000_0000..0x100_0000_0000_0000 => 8,
        0x100_0000_0000_0000..0x8000_0000_0000_0000 => 9,
        _ => 10,
    }
}

fn order_body(order: &ToWorker) -> u64
    ensures { result ≡ capped (spec.order_body order.now) }
{
    match order {
        ToWorker::Single { commands, .. } => plus(11, total(commands.as_slice())),
        ToWorker::InstallTemplate { entries, .. } => plus(10, total(entries.as_slice())),
        ToWorker::Instantiate {
            args,
            versions,
            edits,
            ..
        } => {
            let lists = plus(
                list_length(1, 8, args.len()),
                list_length(2, 8, versions.len()),
            );
            plus(19, plus(lists, total(edits.as_slice())))
        }
        ToWorker::InstallPatch { copies, .. } => plus(6, list_length(2, 6, copies.len())),
        ToWorker::RunPatch { versions, .. } => plus(10, list_length(2, 8, versions.len())),
        ToWorker::Reset { shapes, .. } => plus(7, list_length(2, 8, shapes.len())),
        ToWorker::Stop => 1,
    }
}

fn report_body(report: &FromWorker) -> u64
    ensures { result ≡ capped (spec.report_body report.now) }
{
    match report {
        FromWorker::Value { value, .. } => plus(19, value_length(value)),
        FromWorker::Ran { reads, .. } => plus(13, list_length(1, 10, reads.len())),
        FromWorker::Through { .. } => 9,
        FromWorker::NoMemory => 1,
        FromWorker::PeerDown { .. } => 2,
    }
}

fn plus(first: u64, second: u64) -> u64
    ensures { result ≡ capped (first + second) }
{
    first.saturating_add(second)
}

fn list_length(count: u64, each: u64, items: usize) -> u64
    ensures { result ≡ capped (list_bytes count each items) }
{
    plus(count, each.saturating_mul(items as u64))
}

fn value_length(value: &Value) -> u64
    ensures { result ≡ capped (value_bytes value.now) }
{
    let cells = u64::from(value.rows()).saturating_mul(u64::from(value.width()));
    plus(8, cells.saturating_mul(8))
}

/// What has a length as a part of a frame.
trait Measured {
    ghost bytes: { Self → ℕ };

    fn bytes(&self) -> u64
        ensures { result ≡ capped (bytes self.now) };
}

/// The length of all items of a list.
fn total<T: Measured>(items: &[T]) -> u64
    ensures { result ≡ capped (sum (map T.bytes items.now)) }
{
    let mut all = 0;
    for item in items {
        all = plus(all, item.bytes());
    }
    all
}

impl Measured for Command {
    ghost bytes = { spec.command_bytes };

    fn bytes(&self) -> u64 {
        let before = list_length(2, 4, self.before.len());
        plus(5, plus(kind_length(&self.kind), before))
    }
}

fn kind_length(kind: &Kind) -> u64
    ensures { result ≡ capped (spec.kind_bytes kind.now) }
{
    match kind {
        Kind::Create { .. } => 11,
        Kind::Load { value, .. } => plus(10, value_length(value)),
        Kind::Send { .. } => 7,
        Kind::Receive { .. } => 10,
        Kind::Copy { .. } => 4,
        Kind::Run {
            params,
            reads,
            writes,
            ..
        } => {
            let slots = plus(
                list_length(1, 2, reads.len()),
                list_length(1, 2, writes.len()),
            );
            plus(9, plus(list_length(1, 8, params.len()), slots))
        }
        Kind::Fetch { .. } => 6,
    }
}

impl Measured for Param {
    ghost bytes = { spec.param_bytes };

    fn bytes(&self) -> u64 {
        match self {
            Param::Const(_) => 9,
            Param::Arg(_) => 2,
        }
    }
}

impl Measured for Entry {
    ghost bytes = { spec.entry_bytes };

    fn bytes(&self) -> u64 {
        let before = list_length(2, 4, self.before.len());
        plus(5, plus(entry_kind_length(&self.kind), before))
    }
}

fn entry_kind_length(kind: &EntryKind) -> u64
    ensures { result ≡ capped (spec.entry_kind_bytes kind.now) }
{
    match kind {
        EntryKind::Send { .. } => 7,
        EntryKind::Receive { .. } | EntryKind::Copy { .. } => 4,
        EntryKind::Run {
            params,
            reads,
            writes,
            ..
        } => {
            let slots = plus(
                list_length(1, 2, reads.len()),
                list_length(1, 2, writes.len()),
            );
            plus(2, plus(total(params.as_slice()), slots))
        }
    }
}

impl Measured for Edit {
    ghost bytes = { spec.edit_bytes };

    fn bytes(&self) -> u64 {
        match self {
            Edit::Away { spec, .. } | Edit::Here { spec, .. } => plus(5, spec_length(spec)),
            Edit::Gone { .. } => 3,
            Edit::Home { spec, .. } => plus(3, spec_length(spec)),
        }
    }
}

fn spec_length(moved: &Spec) -> u64
    ensures { result ≡ capped (spec.spec_bytes moved.now) }
{
    let slots = plus(
        list_length(1, 4, moved.reads.len()),
        list_length(1, 2, moved.writes.len()),
    );
    plus(2, plus(total(moved.params.as_slice()), slots))
}
