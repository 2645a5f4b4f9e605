ghost use Rattle.std.specs.Prelude.{◌≡◌, ◌<◌, ◌≤◌, false, true, List, length, map, IfOk, IsTrue};
ghost use Rattle.std.specs.List.{list_all};
ghost use Rattle.nim_base.specs.declared.task.TaskForm.{TaskForm as task_form};
ghost use Rattle.nim_job.specs.Tasks.{task_with_args};
ghost use Rattle.nim_job.specs.Whole.{is_whole_task};
ghost use Rattle.nim_reuse.specs.Decisions.{is_recorded};
ghost use Rattle.nim_course.specs.Controller.{Controller};
ghost use Rattle.nim_control.specs.Form.{AreUsable};
ghost use Rattle.nim_control.specs.Given.{IsGiven, IsToGive};
ghost use Rattle.nim_control.specs.Sites.{SitesStay};

use crate::flight::InFlight;
use crate::instance::give_tasks;
use crate::sites::SiteMap;
use nim_base::{NoMemory, TaskForm, Worker, copies};
use nim_course::Summary;
use nim_message::ToWorker;
use nim_reuse::{DecisionMap, InstanceAt};
use nim_template::ControllerTemplate;
use std::alloc::Global;

/// Gives an instance of a block of these forms: one that was recorded is asked for as a whole, another is given task by
/// task and then recorded. Its reports are awaited then.
pub(crate) fn give_block(
    alloc: Global,
    orders: &mut Vec<(Worker, ToWorker)>,
    sites: &mut SiteMap,
    decisions: &mut DecisionMap,
    summary: &mut Summary,
    at: InstanceAt,
    forms: &[TaskForm],
    args: &[i64],
) -> Result<InFlight, NoMemory>
    requires few { length forms.now ≤ 1024 }
    requires fit { IsTrue
        (list_all (is_whole_task sites.old.versions.objects) (map (task_with_args args.now) forms.now)) }
    requires decided { AreUsable sites.old.versions.objects sites.old.live decisions.old }
    ensures given { IfOk result
        (λ flight. (c : Controller) → IsToGive c at forms.now sites.old decisions.old summary.old
        → IsGiven (is_recorded decisions.old at.block) c at.block args.now
        orders.old.items orders.new.items sites.new decisions.new summary.new flight) }
    ensures decided { AreUsable sites.new.versions.objects sites.new.live decisions.new }
    ensures stay { SitesStay sites.old sites.new }
{
    if decisions.is_recorded(at.block) {
        give_again(alloc, orders, sites, decisions, summary, at, args)
    } else {
        give_first(alloc, orders, sites, decisions, summary, at, forms, args)
    }
}

/// Asks for an instance of a block that was recorded.
fn give_again(
    alloc: Global,
    orders: &mut Vec<(Worker, ToWorker)>,
    sites: &mut SiteMap,
    decisions: &mut DecisionMap,
    summary: &mut Summary,
    at: InstanceAt,
    args: &[i64],
) -> Result<InFlight, NoMemory>
    requires block { at.block < length decisions.old.blocks }
    requires decided { AreUsable sites.old.versions.objects sites.old.live decisions.old }
    ensures given { IfOk result (λ flight. (c : Controller) (forms : List task_form)
        → IsToGive c at forms sites.old decisions.old summary.old
        → IsGiven true c at.block args.now
        orders.old.items orders.new.items sites.new decisions.new summary.new flight) }
    ensures decided { AreUsable sites.new.versions.objects sites.new.live decisions.new }
    ensures stay { SitesStay sites.old sites.new }
{
    let reused = sites.reuse(alloc, orders, decisions, &at, args)?;
    summary.count_reused(reused.is_new, reused.patched);
    Ok(InFlight::whole(alloc, at.instance, at.base, reused.awaited))
}

/// Gives an instance of a block task by task, and records the block.
fn give_first(
    alloc: Global,
    orders: &mut Vec<(Worker, ToWorker)>,
    sites: &mut SiteMap,
    decisions: &mut DecisionMap,
    summary: &mut Summary,
    at: InstanceAt,
    forms: &[TaskForm],
    args: &[i64],
) -> Result<InFlight, NoMemory>
    requires few { length forms.now ≤ 1024 }
    requires fit { IsTrue
        (list_all (is_whole_task sites.old.versions.objects) (map (task_with_args args.now) forms.now)) }
    requires decided { AreUsable sites.old.versions.objects sites.old.live decisions.old }
    ensures given { IfOk result
        (λ flight. (c : Controller) → IsToGive c at forms.now sites.old decisions.old summary.old
        → IsGiven false c at.block args.now
        orders.old.items orders.new.items sites.new decisions.new summary.new flight) }
    ensures decided { AreUsable sites.new.versions.objects sites.new.live decisions.new }
    ensures stay { SitesStay sites.old sites.new }
{
    let flight = give_tasks(alloc, orders, sites, at, forms, args)?;
    let recorded = copies(alloc, forms)?;
    decisions.record(ControllerTemplate {
        block: at.block,
        forms: recorded,
    });
    summary.count_single();
    Ok(flight)
}
