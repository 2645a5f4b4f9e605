ghost use Rattle.std.specs.Prelude.{◌≡◌, ◌+◌, ◌*◌, ◌<◌, ◌≤◌, ◌∷◌, ◌++◌, ℕ, [], length, map, pos, IfOk, IsTrue, OnOk};
ghost use Rattle.std.specs.List.{range_with_len};
ghost use Rattle.nim_job.specs.Objects.{first_cell, objects_of, shapes_of};
ghost use Rattle.nim_job.specs.Whole.{are_vars, is_var, is_whole};
ghost use Rattle.nim_message.specs.declared.order.ToWorker.{ToWorker as order_type};
ghost use Rattle.nim_place.specs.Orders.{resets_of};
ghost use Rattle.nim_place.specs.Placement.{home};
ghost use Rattle.nim_course.specs.Controller.{Controller};
ghost use Rattle.nim_place.specs.Directed.{directed};
ghost use Rattle.nim_course.specs.OrdersGiven as spec;
ghost use Rattle.nim_course.specs.OrdersGiven.{lone_command, first_command, first_commands};
ghost use Rattle.nim_control.specs.Given.{AreAlone};
ghost use Rattle.nim_control.specs.Sites.{HasSites, SitesStay};

use crate::orders::{command_of, push_alone};
use crate::sites::SiteMap;
use nim_base::{Copied, Epoch, NoMemory, Object, Seq, Shape, Slot, Value, Worker};
use nim_command::Kind;
use nim_job::{Init, Job, Var, shapes};
use nim_message::ToWorker;
use std::alloc::Global;

/// Gives each live worker a Reset, which begins an epoch.
pub(crate) fn push_resets(
    alloc: Global,
    orders: &mut Vec<(Worker, ToWorker)>,
    sites: &SiteMap,
    epoch: Epoch,
    job: &Job,
) -> Result<(), NoMemory>
    requires { IsTrue (is_whole job.now) }
    ensures { OnOk result (orders.new.items ≡ orders.old.items ++ directed (length sites.now.live)
        (resets_of sites.now.live epoch (length sites.now.live) (shapes_of job.now.vars))) }
{
    for number in 0..sites.workers() {
        push_reset(alloc, orders, sites, epoch, job, Worker(number))?;
    }
    Ok(())
}

/// Gives a worker a Reset, if it is live.
fn push_reset(
    alloc: Global,
    orders: &mut Vec<(Worker, ToWorker)>,
    sites: &SiteMap,
    epoch: Epoch,
    job: &Job,
    worker: Worker,
) -> Result<(), NoMemory>
    requires { IsTrue (is_whole job.now) }
    ensures { OnOk result (orders.new.items ≡ orders.old.items ++ map (λ (order : order_type). (worker, order))
        (resets_of sites.now.live epoch (length sites.now.live) (shapes_of job.now.vars) worker.0)) }
{
    if !sites.is_live(worker) {
        return Ok(());
    }
    let order = ToWorker::Reset {
        epoch,
        worker,
        workers: sites.workers(),
        shapes: Seq::from_vec(shapes(alloc, job)?),
    };
    Ok(orders.push((worker, order))?)
}

/// Gives each object, at its home, what it holds at first.
pub(crate) fn push_firsts(
    alloc: Global,
    orders: &mut Vec<(Worker, ToWorker)>,
    sites: &mut SiteMap,
    epoch: Epoch,
    vars: &[Var],
) -> Result<(), NoMemory>
    requires vars { IsTrue (are_vars vars.now) }
    requires objects { sites.old.versions.objects ≡ objects_of vars.now }
    ensures given { OnOk result ((c : Controller) → HasSites c sites.old
        → AreAlone epoch (first_commands c 0 vars.now) orders.old.items sites.old orders.new.items sites.new) }
    ensures stay { SitesStay sites.old sites.new }
{
    let mut first = 0u16;
    for var in vars {
        push_parts(alloc, orders, sites, epoch, var, first)?;
        first += var.parts as u16;
    }
    Ok(())
}

/// Gives the parts of a variable, of which part 0 is object `first`, what they hold at first.
fn push_parts(
    alloc: Global,
    orders: &mut Vec<(Worker, ToWorker)>,
    sites: &mut SiteMap,
    epoch: Epoch,
    var: &Var,
    first: u16,
) -> Result<(), NoMemory>
    requires sizes { IsTrue (is_var var.now) }
    requires within { first + var.now.parts ≤ sites.old.versions.objects }
    requires few { sites.old.versions.objects ≤ 512 }
    ensures given { OnOk result ((c : Controller) → HasSites c sites.old
        → AreAlone epoch (map (first_command c var.now first) (range_with_len 0 var.now.parts))
        orders.old.items sites.old orders.new.items sites.new) }
    ensures stay { SitesStay sites.old sites.new }
{
    for part in 0..var.parts {
        let object = Object(first + part as u16);
        let kind = first_kind(alloc, var, part, object)?;
        push_first(alloc, orders, sites, epoch, object, kind)?;
    }
    Ok(())
}

/// Gives an object, at its home, what it holds at first.
fn push_first(
    alloc: Global,
    orders: &mut Vec<(Worker, ToWorker)>,
    sites: &mut SiteMap,
    epoch: Epoch,
    object: Object,
    kind: Kind,
) -> Result<(), NoMemory>
    requires { object.0 < sites.old.versions.objects }
    ensures given { let worker = home sites.old.place object sites.old.versions.objects sites.old.live in
        OnOk result (AreAlone epoch ((worker, lone_command kind) ∷ [])
        orders.old.items sites.old orders.new.items sites.new) }
    ensures stay { SitesStay sites.old sites.new }
{
    let worker = sites.home(object);
    let command = command_of(alloc, kind);
    sites.take(worker, &command);
    push_alone(alloc, orders, epoch, worker, command)
}

/// Makes what a part holds at first, or puts it there where it was loaded.
fn first_kind(alloc: Global, var: &Var, part: u32, object: Object) -> Result<Kind, NoMemory>
    requires sizes { IsTrue (is_var var.now) }
    requires part { part < var.now.parts }
    ensures { IfOk result (λ kind. kind ≡ spec.first_kind var.now.shape var.now.init part object) }
{
    let slot = Slot(object.0);
    Ok(match &var.init {
        Init::Fill(number) => Kind::Create {
            slot,
            iota: false,
            number: *number,
        },
        Init::Iota => Kind::Create {
            slot,
            iota: true,
            number: first_cell(var.shape, part),
        },
        Init::Loaded(values) => Kind::Load {
            slot,
            version: 0,
            value: match values.as_slice().get(part as usize) {
                Some(value) => value.copy()?,
                None => Value::new(alloc, 1),
            },
        },
    })
}

/// The number of a part's first cell, all cells of a variable counted row by row.
pub(crate) fn first_cell(shape: Shape, part: u32) -> i64
    requires cells { shape.rows * shape.width ≤ 65536 }
    requires part { part < 64 }
    ensures { result ≡ pos (first_cell shape part) }
{
    i64::from(part * (shape.rows * shape.width))
}
