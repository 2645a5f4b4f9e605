ghost use Rattle.std.specs.Prelude.{◌≡◌, ◌≤◌, ◌∷◌, ◌++◌, [], if◌then◌else◌, false, length, map, IfOk, OnOk};
ghost use Rattle.std.specs.List.{list_any, position_or_len};
ghost use Rattle.nim_base.specs.Value as grids;
ghost use Rattle.nim_job.specs.Step.{part_texts};
ghost use Rattle.nim_course.specs.Controller.{is_in_flight};
ghost use Rattle.nim_course.specs.Moves as moves;
ghost use Rattle.nim_course.specs.Moves.{is_open, value_in};
ghost use Rattle.nim_course.specs.Reports as reports;

use crate::flight::InFlight;
use nim_base::{Instance, NoMemory, Object, Position, Value, Version, Worker, value_text};
use nim_course::Fetched;
use std::alloc::Global;

/// A value is reported of what was fetched at a place, if it is what was asked for.
pub(crate) fn tell_at(
    fetched: &mut Vec<Fetched>,
    place: usize,
    object: Object,
    version: Version,
    value: Value,
)
    ensures { fetched.new.items ≡ reports.told_at fetched.old.items place object version value }
{
    if place < fetched.len() && is_asked(&fetched[place], object, version) {
        fetched[place].value = Some(value);
    }
}

/// Whether something that was fetched is this version of an object, and wasn't reported yet.
fn is_asked(fetched: &Fetched, object: Object, version: Version) -> bool
    ensures { result ≡ reports.is_asked object version fetched.now }
{
    fetched.value.is_none() && fetched.object.0 == object.0 && fetched.version == version
}

/// One more instance is in flight, if a report of it is awaited.
pub(crate) fn push_open(flights: &mut Vec<InFlight>, flight: InFlight) -> Result<(), NoMemory>
    ensures { OnOk result (flights.new.items
        ≡ flights.old.items ++ (if is_in_flight flight then flight ∷ [] else [])) }
{
    if flight.is_open() {
        flights.push(flight)?;
    }
    Ok(())
}

/// A worker reports the run of the task at a position; what isn't in flight any more goes.
pub(crate) fn tell_ran(flights: &mut Vec<InFlight>, from: Worker, position: Position)
    ensures { flights.new.items ≡ reports.flight_after from position flights.old.items }
{
    let mut at = 0;
    while at < flights.len() {
        flights[at].on_ran(from, position);
        if flights[at].is_open() {
            at += 1;
        } else {
            flights.remove(at);
        }
    }
}

/// A worker reports that it is through with an instance; what isn't in flight any more goes.
pub(crate) fn tell_through(flights: &mut Vec<InFlight>, from: Worker, instance: Instance)
    ensures { flights.new.items ≡ reports.flight_through from instance flights.old.items }
{
    let mut at = 0;
    while at < flights.len() {
        flights[at].on_through(from, instance);
        if flights[at].is_open() {
            at += 1;
        } else {
            flights.remove(at);
        }
    }
}

/// The place of the first that wasn't reported yet; the length where there is none.
pub(crate) fn first_open(fetched: &[Fetched]) -> usize
    ensures first { result ≡ position_or_len is_open fetched.now }
    ensures within { result ≤ length fetched.now }
{
    let mut place = 0;
    for one in fetched {
        if one.value.is_none() {
            return place;
        }
        place += 1;
    }
    place
}

/// Whether one wasn't reported yet.
pub(crate) fn is_any_open(fetched: &[Fetched]) -> bool
    ensures { result ≡ list_any is_open fetched.now }
{
    fetched.iter().any(|one| one.value.is_none())
}

/// The cell of a `get`, of the object that was fetched; 0 where there is none.
pub(crate) fn cell_told(fetched: &[Fetched], row: u64, cell: u64) -> i64
    ensures { result ≡ moves.cell_told fetched.now row cell }
{
    match fetched.first() {
        Some(one) => match &one.value {
            Some(value) => cell_of(value, row, cell),
            None => 0,
        },
        None => 0,
    }
}

/// A cell of a value; 0 where there is none.
fn cell_of(value: &Value, row: u64, cell: u64) -> i64
    ensures { result ≡ grids.cell_of value.now row cell }
{
    let _shaped = value.cells();
    if row >= u64::from(value.rows()) {
        return 0;
    }
    if cell >= u64::from(value.width()) {
        return 0;
    }
    value.cell(row as u32, cell as u32)
}

/// What is printed of parts that were fetched, the first of them part 0.
pub(crate) fn texts(alloc: Global, name: &str, fetched: &[Fetched]) -> Result<Vec<u8>, NoMemory>
    requires told { list_any is_open fetched.now ≡ false }
    requires few { length fetched.now ≤ 64 }
    ensures { IfOk result (λ text. text.items ≡ part_texts name.now 0 (map value_in fetched.now)) }
{
    let mut text = Vec::new(alloc);
    let mut part = 0u32;
    for one in fetched {
        if let Some(value) = &one.value {
            value_text(alloc, name, part, value, &mut text)?;
        }
        part += 1;
    }
    Ok(text)
}
