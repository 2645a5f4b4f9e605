ghost use Rattle.std.specs.Prelude.{◌≡◌, ◌<◌, ◌++◌, map, IfOk, IsTrue, OnOk};
ghost use Rattle.std.specs.List.{list_all};
ghost use Rattle.nim_job.specs.Machine.{start_machine};
ghost use Rattle.nim_job.specs.Objects.{initial_parts, initial_values};
ghost use Rattle.nim_job.specs.Whole.{is_filled, is_var, is_whole};
ghost use Rattle.nim_control.specs.Checkpoints as spec;
ghost use Rattle.nim_control.specs.Checkpoints.{IsCheckpointAt, at_first};

use crate::begin::first_cell;
use nim_base::{Copied, NoMemory, Position, Seq, Value, Version};
use nim_job::{DriverMachine, DriverState, Init, Job, Var};
use std::alloc::Global;

/// A state of a job that may be gone back to. Which one it is says `IsCheckpointAt` of `specs/Checkpoints.antt`.
#[derive(Debug, Drop)]
pub struct Checkpoint {
    pub state: DriverState,
    /// How many tasks run before it.
    pub position: Position,
    /// What each object holds there, in order of their numbers.
    pub objects: Seq<(Version, Value)>,
}

/// The start of a job: what stands for a checkpoint until one is committed.
pub(crate) fn first_checkpoint(
    alloc: Global,
    job: &Job,
    machine: &DriverMachine,
) -> Result<Checkpoint, NoMemory>
    requires whole { IsTrue (is_whole job.now) }
    requires start { machine.now ≡ start_machine job.now }
    ensures { IfOk result (λ checkpoint. IsCheckpointAt job.now 0 checkpoint) }
{
    let objects = first_objects(alloc, job.vars.as_slice())?;
    Ok(Checkpoint {
        state: machine.save()?,
        position: 0,
        objects: Seq::from_vec(objects),
    })
}

/// What the objects of variables hold at first, each as version 0.
fn first_objects(alloc: Global, vars: &[Var]) -> Result<Vec<(Version, Value)>, NoMemory>
    requires sizes { IsTrue (list_all is_var vars.now) }
    requires values { IsTrue (list_all is_filled vars.now) }
    ensures { IfOk result (λ objects. objects.items ≡ map at_first (initial_values vars.now)) }
{
    let mut objects = Vec::new(alloc);
    for var in vars {
        push_parts(alloc, &mut objects, var)?;
    }
    Ok(objects)
}

/// Appends what the parts of a variable hold at first, each as version 0.
fn push_parts(alloc: Global, objects: &mut Vec<(Version, Value)>, var: &Var) -> Result<(), NoMemory>
    requires sizes { IsTrue (is_var var.now) }
    requires values { IsTrue (is_filled var.now) }
    ensures { OnOk result (objects.new.items ≡ objects.old.items ++ map at_first (initial_parts var.now var.now.init)) }
{
    for part in 0..var.parts {
        objects.push((0, first_value(alloc, var, part)?))?;
    }
    Ok(())
}

/// What a part holds at first.
fn first_value(alloc: Global, var: &Var, part: u32) -> Result<Value, NoMemory>
    requires sizes { IsTrue (is_var var.now) }
    requires part { part < var.now.parts }
    ensures { IfOk result (λ value. value ≡ spec.first_value var.now.shape var.now.init part) }
{
    match &var.init {
        Init::Fill(number) => Value::filled(alloc, var.shape, *number),
        Init::Iota => Value::iota(alloc, var.shape, first_cell(var.shape, part)),
        Init::Loaded(values) => match values.as_slice().get(part as usize) {
            Some(value) => value.copy(),
            None => Ok(Value::new(alloc, 1)),
        },
    }
}
