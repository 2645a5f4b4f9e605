ghost use Rattle.std.specs.Prelude.{IfSome};
ghost use Rattle.std.proofs.Props.{props};
ghost use Rattle.nim_base.specs.declared.task.Func.{Func as func_type};
ghost use Rattle.nim_base.specs.Apply.{HasCounts};
ghost use Rattle.nim_worker.specs.Inputs.{AreIdle};

use crate::inputs::Inputs;
use nim_base::{Epoch, Func, NoMemory, Object, Position, Value, Version};
use nim_command::Kind;
use nim_funcs::apply;
use nim_store::Store;
use std::alloc::Global;

/// A command that a worker was released to run, with the values that it reads.
#[derive(Drop)]
pub struct Work {
    pub(crate) alloc: Global,
    pub(crate) ticket: u64,
    pub(crate) position: Option<Position>,
    /// The function of a Run whose counts are that function's; all else has nothing to perform.
    pub(crate) func: Option<Func>,
    pub(crate) inputs: Box<Inputs>,
    pub(crate) results: Option<Vec<Value>>,
    ghost counted: { IfSome func (λ (f : func_type). HasCounts f inputs.value.params.items inputs.value.places.items
        inputs.value.shapes.items) } by { Prim.hlevel props },
}

/// Commands that may run at once, each a work of its own.
#[derive(Drop)]
pub struct Batch {
    pub(crate) epoch: Epoch,
    pub(crate) works: Vec<Work>,
    /// Inputs that none of the works has.
    pub(crate) spare: Vec<Box<Inputs>>,
    ghost idle: { AreIdle spare.items },
}

impl Batch {
    ghost use Rattle.std.specs.Prelude.{◌≡◌, ◌==◌, length};
    ghost use Rattle.std.specs.Borrow.{sem};
    ghost use Rattle.nim_worker.specs.Lending.{LendsWorks};

    /// The epoch of the last Reset before the batch was begun, 0 where there was none.
    pub fn epoch(&self) -> Epoch
        ensures { result ≡ self.now.epoch }
    {
        self.epoch
    }

    /// Whether it has no work.
    pub fn is_empty(&self) -> bool
        ensures { result ≡ (length self.now.works.items == 0) }
    {
        self.works.is_empty()
    }

    /// The works, in the order in which their commands were given.
    pub fn as_slice(&self) -> &[Work]
        ensures { result.now ≡ self.now.works.items }
    {
        self.works.as_slice()
    }

    /// The works, in the order in which their commands were given. The batch ends with the works as they are left.
    pub fn works(&mut self) -> &mut [Work]
        ensures* lends { sem 𝓛 (LendsWorks self.entry result) }
        ensures value { result.now ≡ self.old.works.items }
    {
        self.works.as_mut_slice()
    }
}

impl Work {
    ghost use Rattle.std.specs.Prelude.{◌≡◌, true, IsOk, OnErr, OnOk};
    ghost use Rattle.nim_store.specs.Stored.{slot_at};
    ghost use Rattle.nim_worker.specs.Inputs.{IsIdle};
    ghost use Rattle.nim_worker.specs.Works as spec;
    ghost use Rattle.nim_worker.specs.Works.{IsPerformed, IsWork, KeepsWork, begun_as, is_performed};

    /// Runs the task of the work, where it is a Run that wasn't run yet: it then has the task's results. All else is
    /// done when the batch is finished; a work with nothing to perform takes no memory.
    pub fn perform(&mut self) -> Result<(), NoMemory>
        ensures ok { OnOk result (IsPerformed self.old self.new) }
        ensures err { OnErr result (self.new ≡ self.old) }
        ensures keeps { KeepsWork self.old self.new }
        ensures done { OnOk result (is_performed self.new ≡ true) }
        ensures again { is_performed self.old ≡ true → IsOk result × (self.new ≡ self.old) }
    {
        if self.results.is_none() {
            if let Some(func) = self.func {
                let inputs = &*self.inputs;
                let results = apply(
                    self.alloc,
                    func,
                    inputs.params.as_slice(),
                    inputs.values.as_slice(),
                    inputs.places.as_slice(),
                    inputs.shapes.as_slice(),
                )?;
                self.results = Some(results);
            }
        }
        Ok(())
    }

    /// The place of the work's command in the order given, from 0 since the last Reset.
    pub fn ticket(&self) -> u64
        ensures { result ≡ self.now.ticket }
    {
        self.ticket
    }

    /// The position of the task that the work runs; nothing where the work is no Run.
    pub fn run(&self) -> Option<Position>
        ensures { result ≡ self.now.position }
    {
        self.position
    }

    /// For a Run whose counts are its function's, the object and version that each of its slots had when the batch
    /// was begun, in order; nothing for any other work.
    pub fn reads(&self) -> &[(Object, Version)]
        ensures { result.now ≡ self.now.inputs.value.contents.items }
    {
        self.inputs.contents.as_slice()
    }

    /// The work of a command: a Run whose counts are its function's takes the values that it reads. Takes no memory.
    pub(crate) fn new(
        alloc: Global,
        ticket: u64,
        kind: &Kind,
        mut inputs: Box<Inputs>,
        store: &mut Store,
    ) -> Work
        requires { IsIdle inputs.value }
        ensures work { IsWork store.old.shapes (slot_at store.old) (slot_at store.new)
            (begun_as ticket kind.now) result }
        ensures shapes { store.new.shapes ≡ store.old.shapes }
    {
        let func = inputs.take_for(alloc, kind, store);
        Work {
            alloc,
            ticket,
            position: Work::position_of(kind),
            func,
            inputs,
            results: None,
        }
    }

    /// The position of the task that a command runs, if it runs one.
    fn position_of(kind: &Kind) -> Option<Position>
        ensures { result ≡ spec.position_of kind.now }
    {
        match kind {
            Kind::Run { position, .. } => Some(*position),
            _ => None,
        }
    }
}
