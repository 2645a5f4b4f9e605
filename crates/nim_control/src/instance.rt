ghost use Rattle.std.specs.Prelude.{◌≡◌, ◌<◌, ◌++◌, length, map, IfOk, IsTrue, OnOk};
ghost use Rattle.std.specs.List.{list_all};
ghost use Rattle.nim_job.specs.Tasks as tasks;
ghost use Rattle.nim_job.specs.Whole.{is_whole_task};
ghost use Rattle.nim_command.specs.Numbers.{counted_from};
ghost use Rattle.nim_place.specs.Extends.{singles_of};
ghost use Rattle.nim_place.specs.Schedule.{owner_of, scheduled};
ghost use Rattle.nim_place.specs.Versions.{after_commands};
ghost use Rattle.nim_course.specs.Controller.{Controller};
ghost use Rattle.nim_place.specs.Directed.{directed};
ghost use Rattle.nim_control.specs.Given.{AreTasks, IsToRun, awaiting};
ghost use Rattle.nim_control.specs.Sites.{SitesStay};

use crate::flight::InFlight;
use crate::orders::push_singles;
use crate::sites::SiteMap;
use nim_base::{Copied, NoMemory, Param, Seq, Task, TaskForm, Worker};
use nim_job::param_of;
use nim_message::ToWorker;
use nim_reuse::InstanceAt;
use std::alloc::Global;

/// Gives the tasks of an instance, the arguments put in, each at its home; a report of each is awaited then.
pub(crate) fn give_tasks(
    alloc: Global,
    orders: &mut Vec<(Worker, ToWorker)>,
    sites: &mut SiteMap,
    instance: InstanceAt,
    forms: &[TaskForm],
    args: &[i64],
) -> Result<InFlight, NoMemory>
    requires few { length forms.now < 65536 }
    requires fit { IsTrue
        (list_all (is_whole_task sites.old.versions.objects) (map (tasks.task_with_args args.now) forms.now)) }
    ensures given { OnOk result ((c : Controller) → IsToRun c instance sites.old
        → AreTasks c 0 (map (tasks.task_with_args args.now) forms.now)
        orders.old.items sites.old orders.new.items sites.new) }
    ensures flight { IfOk result (λ flight. (c : Controller) → IsToRun c instance sites.old
        → flight ≡ awaiting c (map (tasks.task_with_args args.now) forms.now)) }
    ensures stay { SitesStay sites.old sites.new }
{
    let mut flight = InFlight::new(alloc, instance.instance, instance.base);
    let mut number = 0u16;
    for form in forms {
        let task = task_of(alloc, args, form)?;
        flight.push(sites.owner(&task))?;
        give_task(alloc, orders, sites, instance, number, &task)?;
        number += 1;
    }
    Ok(flight)
}

/// Gives the task of this number: each worker gets its commands of it in one Single.
fn give_task(
    alloc: Global,
    orders: &mut Vec<(Worker, ToWorker)>,
    sites: &mut SiteMap,
    instance: InstanceAt,
    number: u16,
    task: &Task,
) -> Result<(), NoMemory>
    requires { IsTrue (is_whole_task sites.old.versions.objects task.now) }
    ensures orders { let commands = scheduled sites.old.versions task.now number (counted_from instance.base number)
        sites.old.place sites.old.live in
        OnOk result (orders.new.items ≡ orders.old.items
        ++ directed (length sites.old.live) (singles_of instance.epoch instance.instance commands)) }
    ensures sites { let commands = scheduled sites.old.versions task.now number (counted_from instance.base number)
        sites.old.place sites.old.live in
        OnOk result (sites.new ≡ record sites.old { versions = after_commands sites.old.versions commands }) }
    ensures stay { SitesStay sites.old sites.new }
{
    let position = instance.base.saturating_add(u64::from(number));
    let commands = sites.schedule(alloc, task, number, position)?;
    push_singles(
        alloc,
        orders,
        sites.workers(),
        instance.epoch,
        instance.instance,
        commands,
    )?;
    Ok(())
}

/// A task with the arguments put in.
fn task_of(alloc: Global, args: &[i64], form: &TaskForm) -> Result<Task, NoMemory>
    ensures { IfOk result (λ task. task ≡ tasks.task_with_args args.now form.now) }
{
    Ok(Task {
        func: form.func,
        params: numbers(alloc, args, form.params.as_slice())?,
        reads: form.reads.copy()?,
        writes: form.writes.copy()?,
    })
}

/// The numbers that parameters stand for.
fn numbers(alloc: Global, args: &[i64], params: &[Param]) -> Result<Seq<i64>, NoMemory>
    ensures { IfOk result (λ numbers. numbers ≡ map (tasks.param_of args.now) params.now) }
{
    let mut numbers = Seq::new(alloc);
    for param in params {
        numbers.push(param_of(args, *param))?;
    }
    Ok(numbers)
}
