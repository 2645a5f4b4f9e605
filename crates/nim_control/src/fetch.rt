ghost use Rattle.std.specs.Prelude.{◌≡◌, ◌+◌, ◌≤◌, ◌∷◌, ◌++◌, [], map, IfOk, OnOk};
ghost use Rattle.nim_course.specs.OrdersGiven.{fetch_commands, fetched_of, single_for};
ghost use Rattle.nim_control.specs.Given.{objects_from};

use crate::orders::{command_of, push_alone};
use crate::sites::SiteMap;
use nim_base::{Epoch, NoMemory, Object, Slot, Worker};
use nim_command::Kind;
use nim_course::Fetched;
use nim_message::ToWorker;
use std::alloc::Global;

/// Fetches so many objects from one on, each in its latest version from the lowest worker that holds it, the first
/// under
/// this ticket. Gives what is awaited then.
pub(crate) fn fetch_objects(
    alloc: Global,
    orders: &mut Vec<(Worker, ToWorker)>,
    sites: &SiteMap,
    epoch: Epoch,
    ticket: u32,
    first: u16,
    count: u32,
) -> Result<Vec<Fetched>, NoMemory>
    requires { first + count ≤ 65536 }
    ensures orders { OnOk result (orders.new.items ≡ orders.old.items
        ++ map (single_for epoch) (fetch_commands sites.now.versions ticket (objects_from first count))) }
    ensures fetched { IfOk result (λ fetched. fetched.items
        ≡ map (fetched_of sites.now.versions) (objects_from first count)) }
{
    let mut fetched = Vec::with_capacity(alloc, count as usize)?;
    let mut next = ticket;
    for part in 0..count {
        let object = Object(first + part as u16);
        push_fetch(alloc, orders, sites, epoch, next, object)?;
        fetched.push(Fetched {
            object,
            version: sites.latest(object),
            value: None,
        })?;
        next = next.saturating_add(1);
    }
    Ok(fetched)
}

/// Fetches an object from the lowest worker that holds its latest version.
fn push_fetch(
    alloc: Global,
    orders: &mut Vec<(Worker, ToWorker)>,
    sites: &SiteMap,
    epoch: Epoch,
    ticket: u32,
    object: Object,
) -> Result<(), NoMemory>
    ensures { OnOk result (orders.new.items
        ≡ orders.old.items ++ map (single_for epoch) (fetch_commands sites.now.versions ticket (object ∷ []))) }
{
    match sites.holder(object) {
        Some(worker) => {
            let kind = Kind::Fetch {
                slot: Slot(object.0),
                ticket,
            };
            push_alone(alloc, orders, epoch, worker, command_of(alloc, kind))
        }
        None => Ok(()),
    }
}
