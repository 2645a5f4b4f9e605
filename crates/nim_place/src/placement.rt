ghost use Rattle.std.specs.Prelude.{◌≡◌, ◌<◌, ◌≤◌, true, false, length, slice_index_or};
ghost use Rattle.std.specs.List.{list_any};
ghost use Rattle.nim_place.specs.Placement as spec;

use nim_base::{Object, Worker};

/// The rule by which each object gets a worker that it is meant for.
#[derive(Clone, Copy, Debug, PartialEq, Eq)]
pub enum Placement {
    /// One object after another, going round the workers.
    Cyclic,
    /// Neighbouring objects at one worker.
    Block,
    /// Scattered, in another way for each number.
    Mixed(u64),
}

/// What `Placement::Mixed` multiplies by.
const FACTOR: u128 = 6_364_136_223_846_793_005;

/// Where an object is placed, of so many objects: at the worker that it is meant for, or where this one isn't live, at
/// the first live one after it, going round. `live` has a flag for each worker. Its meaning is `home` of
/// `specs/Placement.antt`.
pub fn home(place: &Placement, object: Object, objects: u16, live: &[bool]) -> Worker
    requires object { object.0 < objects }
    requires workers { length live.now ≤ 16 }
    requires live { list_any (λ flag. flag) live.now ≡ true }
    ensures home { result ≡ spec.home place.now object objects live.now }
    ensures within { result.0 < length live.now }
    ensures live { slice_index_or live.now result.0 false ≡ true }
{
    let meant = preferred(place, object, objects, live.len());
    Worker(live_from(live, meant) as u16)
}

/// The worker that an object is meant for.
fn preferred(place: &Placement, object: Object, objects: u16, workers: usize) -> usize
    requires object { object.0 < objects }
    requires some { 0 < workers }
    requires few { workers ≤ 16 }
    ensures value { result ≡ spec.preferred place.now object.0 objects workers }
    ensures within { result < workers }
{
    let number = usize::from(object.0);
    match place {
        Placement::Cyclic => number % workers,
        Placement::Block => number * workers / usize::from(objects),
        Placement::Mixed(mix) => (mixed(*mix, object.0) / (1 << 33)) as usize % workers,
    }
}

/// A number that differs much from object to object.
fn mixed(number: u64, object: u16) -> u64
    ensures { result ≡ spec.mixed number object }
{
    let sum = u128::from(number) + (u128::from(object) + 1) * FACTOR;
    (sum % (1 << 64)) as u64
}

/// The first live worker from one on, going round.
fn live_from(live: &[bool], from: usize) -> usize
    requires from { from < length live.now }
    requires live { list_any (λ flag. flag) live.now ≡ true }
    ensures value { result ≡ spec.live_from live.now from }
    ensures within { result < length live.now }
    ensures live { slice_index_or live.now result false ≡ true }
{
    let ahead = live_ahead(live, from);
    if ahead < live.len() {
        ahead
    } else {
        live_ahead(live, 0)
    }
}

/// The first live worker from one on, or the number of workers.
fn live_ahead(live: &[bool], from: usize) -> usize
    requires { from ≤ length live.now }
    ensures value { result ≡ spec.live_ahead live.now from }
    ensures live { result < length live.now → slice_index_or live.now result false ≡ true }
{
    for at in from..live.len() {
        if live[at] {
            return at;
        }
    }
    live.len()
}
