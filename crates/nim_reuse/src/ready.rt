ghost use Rattle.std.specs.Prelude.{◌≡◌, ◌≤◌, ◌∷◌, ◌++◌, [], if◌then◌else◌, length, IfOk, OnOk};
ghost use Rattle.nim_reuse.specs.HalfTasks as counts;
ghost use Rattle.nim_reuse.specs.Received as spec;
ghost use Rattle.nim_reuse.specs.Reuse.{awaited_of, has_entries};
ghost use Rattle.nim_template.specs.Instance.{half_of};

use nim_base::{NoMemory, Object, Seq, Worker};
use nim_command::{Entry, EntryKind, WorkerTemplate, object_of};
use std::alloc::Global;
use std::marker::Model;

/// A template that is installed, with what an instance of it needs, so that none walks its entries: a flag for each
/// precondition, and for each half the objects that it receives as its block began with them and how many tasks it
/// runs. Contracts see the template.
#[derive(Drop)]
pub struct Ready {
    pub(crate) template: WorkerTemplate,
    pub(crate) flags: Vec<bool>,
    pub(crate) received: Vec<Vec<Object>>,
    pub(crate) tasks: Vec<u64>,
}

impl Model for Ready {
    ghost use Rattle.std.specs.Prelude.{◌≡◌, ◌≤◌, length, map};
    ghost use Rattle.nim_command.specs.declared.template.WorkerTemplate.{WorkerTemplate as template_type};
    ghost use Rattle.nim_reuse.specs.HalfTasks.{tasks_in};
    ghost use Rattle.nim_reuse.specs.Received.{received_in};

    ghost Value = { template_type };

    ghost view = { λ r. r.template };

    ghost invariant = { λ r. (length r.flags.items ≡ length r.template.preconditions)
        × (map (λ objects. objects.items) r.received.items ≡ map received_in r.template.halves)
        × (r.tasks.items ≡ map tasks_in r.template.halves)
        × (length r.template.preconditions ≤ 8192) };
}

impl Ready {
    /// Makes a template ready.
    pub(crate) fn new(alloc: Global, template: WorkerTemplate) -> Result<Ready, NoMemory>
        requires { length template.preconditions ≤ 8192 }
        ensures { IfOk result (λ ready. ready ≡ template) }
    {
        let flags = vec![in alloc; false; template.preconditions.len()]?;
        let mut received = Vec::new(alloc);
        let mut tasks = Vec::new(alloc);
        for half in template.halves.as_slice() {
            received.push(received_in(alloc, half.entries())?)?;
            tasks.push(tasks_in(half.entries()))?;
        }
        Ok(Ready {
            template,
            flags,
            received,
            tasks,
        })
    }

    /// The block.
    pub(crate) fn block(&self) -> u8
        ensures { result ≡ self.now.block }
    {
        self.template.block
    }

    /// A worker's half.
    pub(crate) fn half(&self, worker: Worker) -> &[Entry]
        ensures { result.now ≡ half_of self.now worker.0 }
    {
        match self.template.halves.as_slice().get(usize::from(worker.0)) {
            Some(half) => half.entries(),
            None => &[],
        }
    }

    /// The workers whose halves have entries.
    pub(crate) fn awaited(&self, alloc: Global, workers: u16) -> Result<Seq<Worker>, NoMemory>
        ensures { IfOk result (λ awaited. awaited ≡ awaited_of workers self.now) }
    {
        let mut awaited = Seq::new(alloc);
        for number in 0..workers {
            self.push_awaited(&mut awaited, Worker(number))?;
        }
        Ok(awaited)
    }

    /// One more worker, if its half has entries.
    fn push_awaited(&self, awaited: &mut Seq<Worker>, worker: Worker) -> Result<(), NoMemory>
        ensures { OnOk result (awaited.new
            ≡ awaited.old ++ (if has_entries self.now worker then worker ∷ [] else [])) }
    {
        if self.half(worker).is_empty() {
            return Ok(());
        }
        awaited.push(worker)
    }

    /// The objects that a worker's half receives as the block began with them.
    pub(crate) fn received(&self, worker: Worker) -> &[Object]
        ensures { result.now ≡ spec.received_in (half_of self.now worker.0) }
    {
        match self.received.get(usize::from(worker.0)) {
            Some(objects) => objects.as_slice(),
            None => &[],
        }
    }

    /// How many tasks a worker's half runs.
    pub(crate) fn tasks(&self, worker: Worker) -> u64
        ensures { result ≡ counts.tasks_in (half_of self.now worker.0) }
    {
        match self.tasks.get(usize::from(worker.0)) {
            Some(tasks) => *tasks,
            None => 0,
        }
    }
}

/// How many tasks a half runs.
fn tasks_in(half: &[Entry]) -> u64
    ensures { result ≡ counts.tasks_in half.now }
{
    let mut tasks = 0;
    for entry in half {
        if matches!(entry.kind, EntryKind::Run { .. }) {
            tasks += 1;
        }
    }
    tasks
}

/// The objects that a half receives as its block began with them.
fn received_in(alloc: Global, half: &[Entry]) -> Result<Vec<Object>, NoMemory>
    ensures { IfOk result (λ objects. objects.items ≡ spec.received_in half.now) }
{
    let mut objects = Vec::new(alloc);
    for entry in half {
        if let EntryKind::Receive { slot, offset: 0 } = &entry.kind {
            objects.push(object_of(*slot))?;
        }
    }
    Ok(objects)
}
