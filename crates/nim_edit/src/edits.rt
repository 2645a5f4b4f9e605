ghost use Rattle.std.specs.Prelude.{◌≡◌, ◌<◌, ◌≤◌, true, length, map, IfOk};
ghost use Rattle.std.specs.List.{list_all};
ghost use Rattle.nim_edit.specs.Form.{IsInForm, is_edit_below};
ghost use Rattle.nim_edit.specs.Moves as moves;
ghost use Rattle.nim_place.specs.Schedule.{is_one_of};

use crate::mask::mask_of;
use nim_base::{Copied, NoMemory, Object, Seq, TaskForm, Worker};
use nim_command::{Edit, Spec, WorkerTemplate};
use nim_place::is_one_of;
use std::alloc::Global;

/// The edits that move a task to a worker that isn't its owner, each with the worker that gets it.
pub(crate) fn edits_of(
    template: &WorkerTemplate,
    task: u16,
    to: Worker,
) -> Result<Vec<(Worker, Edit)>, NoMemory>
    requires form { IsInForm template.now }
    requires task { task < length template.now.forms }
    requires to { to.0 < length template.now.built }
    ensures value { IfOk result (λ edits. edits.items ≡ moves.edits_of template.now task to) }
    ensures below { IfOk result (λ edits. list_all (is_edit_below (length template.now.built)) edits.items ≡ true) }
{
    let alloc = template.halves.alloc();
    let place = usize::from(task);
    let (home, owner) = (
        template.homes.as_slice()[place],
        template.owners.as_slice()[place],
    );
    let spec = spec_of(alloc, template.forms.as_slice(), place)?;
    if to.0 == home.0 {
        return edits_home(alloc, task, home, owner, spec);
    }
    let mask = mask_of(template, task, to, spec.reads.as_slice());
    edits_away(alloc, task, mask, spec, home, owner, to)
}

/// Back to the home: the task leaves its owner.
fn edits_home(
    alloc: Global,
    task: u16,
    home: Worker,
    owner: Worker,
    spec: Spec,
) -> Result<Vec<(Worker, Edit)>, NoMemory>
    ensures { IfOk result (λ edits. edits.items ≡ moves.edits_home task home owner spec) }
{
    let mut edits = Vec::new(alloc);
    edits.push((owner, Edit::Gone { task }))?;
    edits.push((home, Edit::Home { task, spec }))?;
    Ok(edits)
}

/// To another worker: from its home, or from an owner between, which the task leaves.
fn edits_away(
    alloc: Global,
    task: u16,
    mask: u8,
    spec: Spec,
    home: Worker,
    owner: Worker,
    to: Worker,
) -> Result<Vec<(Worker, Edit)>, NoMemory>
    ensures { IfOk result (λ edits. edits.items ≡ moves.edits_away task mask spec home owner to) }
{
    let mut edits = Vec::new(alloc);
    let away = Edit::Away {
        task,
        to,
        mask,
        spec: spec.copy()?,
    };
    edits.push((home, away))?;
    if owner.0 != home.0 {
        edits.push((owner, Edit::Gone { task }))?;
    }
    let here = Edit::Here {
        task,
        from: home,
        mask,
        spec,
    };
    edits.push((to, here))?;
    Ok(edits)
}

/// What a task runs, with the offset of each read.
fn spec_of(alloc: Global, forms: &[TaskForm], task: usize) -> Result<Spec, NoMemory>
    requires task { task < length forms.now }
    requires many { length forms.now ≤ 1024 }
    ensures { IfOk result (λ made. made ≡ moves.spec_of forms.now task) }
{
    let form = &forms[task];
    Ok(Spec {
        func: form.func,
        params: form.params.copy()?,
        reads: reads_of(alloc, &forms[..task], form.reads.as_slice())?,
        writes: form.writes.copy()?,
    })
}

/// Objects that are read behind tasks of a block, each with its offset there.
fn reads_of(
    alloc: Global,
    past: &[TaskForm],
    objects: &[Object],
) -> Result<Seq<(Object, u16)>, NoMemory>
    requires { length past.now ≤ 1024 }
    ensures { IfOk result (λ reads. reads ≡ map (moves.read_behind past.now) objects.now) }
{
    let mut reads = Vec::new(alloc);
    for object in objects {
        reads.push((*object, offset_behind(past, *object)))?;
    }
    Ok(Seq::from_vec(reads))
}

/// The offset of an object behind the first tasks of a block.
fn offset_behind(past: &[TaskForm], object: Object) -> u16
    requires { length past.now ≤ 1024 }
    ensures { result ≡ moves.offset_behind 0 0 object past.now }
{
    let mut offset = 0;
    for (number, form) in past.iter().enumerate() {
        if is_one_of(form.writes.as_slice(), object) {
            offset = number as u16 + 1;
        }
    }
    offset
}
