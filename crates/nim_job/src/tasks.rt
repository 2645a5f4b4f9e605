ghost use Rattle.std.specs.Prelude.{◌≡◌, ◌<◌, length, map, IfOk, IsTrue};
ghost use Rattle.std.specs.List.{list_all};
ghost use Rattle.nim_job.specs.Objects.{objects_of};
ghost use Rattle.nim_job.specs.Tasks.{block_tasks_of, param_of, task_with_args, takes_of};
ghost use Rattle.nim_job.specs.Whole.{is_whole_task, is_whole};

use crate::{Job, block_forms};
use nim_base::{NoMemory, Param, Seq, Task, TaskForm};
use std::alloc::Global;

/// The tasks that a `do` of a block with these arguments runs, in order. Their meaning is `block_tasks_of` of
/// `specs/Tasks.antt`.
pub fn block_tasks(alloc: Global, job: &Job, block: u8, args: &[i64]) -> Result<Vec<Task>, NoMemory>
    requires whole { IsTrue (is_whole job.now) }
    requires block { block < length job.now.blocks }
    requires args { length args.now ≡ takes_of job.now block }
    ensures tasks { IfOk result (λ tasks. tasks.items ≡ block_tasks_of job.now block args.now) }
    ensures fits { IfOk result (λ tasks. IsTrue (list_all (is_whole_task (objects_of job.now.vars)) tasks.items)) }
{
    let forms = block_forms(alloc, job, block)?;
    let tasks = with_arguments(alloc, args, forms)?;
    Ok(tasks)
}

/// The number that a parameter stands for; 0 for an argument that isn't there. Its meaning is `param_of` of
/// `specs/Tasks.antt`.
pub fn param_of(args: &[i64], param: Param) -> i64
    ensures { result ≡ param_of args.now param }
{
    match param {
        Param::Const(number) => number,
        Param::Arg(arg) => match args.get(usize::from(arg)) {
            Some(number) => *number,
            None => 0,
        },
    }
}

/// Tasks with the arguments put in, in order.
fn with_arguments(alloc: Global, args: &[i64], forms: Vec<TaskForm>) -> Result<Vec<Task>, NoMemory>
    ensures { IfOk result (λ tasks. tasks.items ≡ map (task_with_args args.now) forms.items) }
{
    let mut tasks = Vec::new(alloc);
    for form in forms {
        tasks.push(task(alloc, args, form)?)?;
    }
    Ok(tasks)
}

/// A task with the arguments put in.
fn task(alloc: Global, args: &[i64], form: TaskForm) -> Result<Task, NoMemory>
    ensures { IfOk result (λ task. task ≡ task_with_args args.now form) }
{
    let TaskForm {
        func,
        params,
        reads,
        writes,
    } = form;
    Ok(Task {
        func,
        params: put_in(alloc, args, params.as_slice())?,
        reads,
        writes,
    })
}

/// The parameters with the arguments put in.
fn put_in(alloc: Global, args: &[i64], params: &[Param]) -> Result<Seq<i64>, NoMemory>
    ensures { IfOk result (λ numbers. numbers ≡ map (param_of args.now) params.now) }
{
    let mut numbers = Seq::new(alloc);
    for param in params {
        numbers.push(param_of(args, *param))?;
    }
    Ok(numbers)
}
