ghost use Rattle.std.specs.Prelude.{◌≡◌};
ghost use Rattle.std.specs.List.{list_all};
ghost use Rattle.nim_template.specs.Fits as spec;

use nim_base::{Object, Param, Seq, Task, TaskForm};
use nim_lines::{LineFault, func, halves, number, params, words};
use std::alloc::Global;

/// A task of a block: `FUNC PARAM .. of O .. -> O ..`, where a parameter `#N` is an argument.
pub fn form(alloc: Global, text: &str) -> Result<TaskForm, LineFault> {
    let (head, sides) = halves(text, " of ")?;
    let (from, to) = halves(sides, "->")?;
    let head = words(alloc, head)?;
    let [name, given @ ..] = head.as_slice() else {
        return Err(LineFault::Form("a task has a function"));
    };
    Ok(TaskForm {
        func: func(name)?,
        params: Seq::from_vec(params(alloc, given)?),
        reads: objects(alloc, from)?,
        writes: objects(alloc, to)?,
    })
}

fn objects(alloc: Global, text: &str) -> Result<Seq<Object>, LineFault> {
    let mut all = Vec::new(alloc);
    for word in text.split_whitespace() {
        all.push(Object(number::<u16>(word)?))?;
    }
    Ok(Seq::from_vec(all))
}

/// The task of a form whose parameters are numbers.
pub fn task_of(alloc: Global, form: TaskForm) -> Result<Task, LineFault> {
    let TaskForm {
        func,
        params,
        reads,
        writes,
    } = form;
    let params = constants(alloc, params.as_slice())?;
    Ok(Task {
        func,
        params,
        reads,
        writes,
    })
}

fn constants(alloc: Global, params: &[Param]) -> Result<Seq<i64>, LineFault> {
    let mut all = Vec::new(alloc);
    for param in params {
        match param {
            Param::Const(number) => all.push(*number)?,
            Param::Arg(_) => return Err(LineFault::Form("a task by itself has no arguments")),
        }
    }
    Ok(Seq::from_vec(all))
}

/// Whether forms fit into a block over so many objects.
pub fn all_fit(objects: u16, forms: &[TaskForm]) -> bool
    ensures { result ≡ list_all (spec.is_fit objects) forms.now }
{
    forms.iter().all(|form| fits(objects, form))
}

fn fits(objects: u16, form: &TaskForm) -> bool
    ensures { result ≡ spec.is_fit objects form.now }
{
    1 <= form.writes.len()
        && form.writes.len() <= 2
        && form.reads.len() <= 8
        && are_below(objects, form.writes.as_slice())
        && are_below(objects, form.reads.as_slice())
}

fn are_below(objects: u16, all: &[Object]) -> bool
    ensures { result ≡ spec.are_below objects all.now }
{
    all.iter().all(|object| object.0 < objects)
}
