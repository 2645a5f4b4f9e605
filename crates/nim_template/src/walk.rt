ghost use Rattle.std.specs.Prelude.{◌≡◌, ◌<◌, ◌≤◌, [], true, length, slice_get, IfOk, OnOk, IsSomeAnd};
ghost use Rattle.std.specs.List.{fold, list_all, list_any};
ghost use Rattle.nim_command.specs.declared.command.Kind.{Kind as kind_type};
ghost use Rattle.nim_command.specs.Numbers.{main_slot};
ghost use Rattle.nim_template.specs.MayBuild.{MayBuild};
ghost use Rattle.nim_template.specs.Walk as spec;

use crate::entry::push_all;
use nim_base::{NoMemory, Object, Position, Seq, Short, Slot, Task, TaskForm, Version, Worker};
use nim_command::{Command, Entry, Kind};
use nim_place::{Placement, VersionMap, home, schedule_task};
use std::alloc::Global;
use std::mem;

/// Where a walk over the tasks of a block stands. Its maps have offsets in place of versions: 0 is what an object has
/// at entry, `j + 1` what task `j` of the block writes.
#[derive(Debug, Drop)]
pub(crate) struct Walk {
    /// What each main slot has behind the tasks so far.
    pub(crate) offsets: VersionMap,
    /// The main slots that have to have the version at entry.
    pub(crate) needed: VersionMap,
    /// The entries so far, each with its worker, in ascending number.
    pub(crate) entries: Seq<(Worker, Entry)>,
}

/// Walks the tasks of a block in order, each at its home. The forms stay what they are.
pub(crate) fn walked(
    alloc: Global,
    forms: &mut Vec<TaskForm>,
    place: &Placement,
    objects: u16,
    live: &[bool],
) -> Result<Walk, NoMemory>
    requires { MayBuild objects live.now forms.old.items }
    ensures walk { IfOk result (λ walk.
        walk ≡ spec.walked place.now live.now 0 (spec.empty_walk (length live.now) objects) forms.old.items) }
    ensures forms { OnOk result (forms.new.items ≡ forms.old.items) }
{
    let mut walk = empty_walk(alloc, live.len() as u16, objects)?;
    for number in 0..forms.len() {
        walk.take_form(alloc, number as u16, &mut forms[number], place, live)?;
    }
    Ok(walk)
}

/// Nothing is written yet, and nothing needed.
fn empty_walk(alloc: Global, workers: u16, objects: u16) -> Result<Walk, NoMemory>
    requires { objects ≤ 512 }
    ensures { IfOk result (λ walk. walk ≡ spec.empty_walk workers objects) }
{
    Ok(Walk {
        offsets: VersionMap::new(alloc, workers, objects)?,
        needed: VersionMap::new(alloc, workers, objects)?,
        entries: Seq::new(alloc),
    })
}

impl Walk {
    /// Takes the next task of the block, of this number: what it needs, and its commands. Its form stays what it is.
    fn take_form(
        &mut self,
        alloc: Global,
        number: u16,
        form: &mut TaskForm,
        place: &Placement,
        live: &[bool],
    ) -> Result<(), NoMemory>
        requires workers { length live.now ≡ self.old.offsets.workers }
        requires few { length live.now ≤ 16 }
        requires live { list_any (λ flag. flag) live.now ≡ true }
        requires writes { IsSomeAnd (slice_get form.old.writes 0) (λ object. object.0 < self.old.offsets.objects) }
        ensures walk { OnOk result (self.new ≡ spec.walked_past place.now live.now number self.old form.old) }
        ensures form { OnOk result (form.new ≡ form.old) }
    {
        let owner = home_of(place, form, self.offsets.objects(), live);
        self.need_all(alloc, owner, form.reads.as_slice());
        let task = lent_task(alloc, form);
        let position = Position::from(number);
        let commands = schedule_task(
            alloc,
            &mut self.offsets,
            &task,
            number,
            position,
            place,
            live,
        )?;
        give_back(form, task);
        push_all(&mut self.entries, form, commands.as_slice())?;
        Ok(())
    }

    /// A worker reads objects.
    fn need_all(&mut self, alloc: Global, worker: Worker, reads: &[Object])
        ensures { self.new ≡ fold (spec.with_need worker) self.old reads.now }
    {
        for object in reads {
            self.need(alloc, worker, *object);
        }
    }

    /// A worker reads an object: what no task so far writes has to be there at entry.
    fn need(&mut self, alloc: Global, worker: Worker, object: Object)
        ensures { self.new ≡ spec.with_need worker self.old object }
    {
        if self.offsets.latest(object) == 0 {
            let command = received(alloc, object, 0);
            self.offsets.apply_command(worker, &command);
            self.needed.apply_command(worker, &command);
        }
    }
}

/// A command that leaves an offset in the main slot of an object.
pub(crate) fn received(alloc: Global, object: Object, offset: Version) -> Command
    ensures { result ≡ record { id = 0; kind = kind_type.Receive (main_slot object) offset; before = [] } }
{
    let slot = Slot(object.0);
    Command {
        id: 0,
        kind: Kind::Receive {
            slot,
            version: offset,
        },
        before: Short::new(alloc),
    }
}

/// The home of a form's task.
pub(crate) fn home_of(place: &Placement, form: &TaskForm, objects: u16, live: &[bool]) -> Worker
    requires few { length live.now ≤ 16 }
    requires live { list_any (λ flag. flag) live.now ≡ true }
    requires writes { IsSomeAnd (slice_get form.now.writes 0) (λ object. object.0 < objects) }
    ensures { result ≡ spec.home_of place.now objects live.now form.now }
{
    let first = form.writes.as_slice()[0];
    home(place, first, objects, live)
}

/// A form as a task, its parameters aside. The task has the reads and writes of the form, which keeps none.
fn lent_task(alloc: Global, form: &mut TaskForm) -> Task
    ensures task { result ≡ spec.task_for form.old }
    ensures form { form.new ≡ record form.old { reads = []; writes = [] } }
{
    Task {
        func: form.func,
        params: Seq::new(alloc),
        reads: mem::replace(&mut form.reads, Seq::new(alloc)),
        writes: mem::replace(&mut form.writes, Seq::new(alloc)),
    }
}

/// A form has the reads and writes of a task again.
fn give_back(form: &mut TaskForm, task: Task)
    ensures { form.new ≡ record form.old { reads = task.reads; writes = task.writes } }
{
    let Task { reads, writes, .. } = task;
    form.reads = reads;
    form.writes = writes;
}
