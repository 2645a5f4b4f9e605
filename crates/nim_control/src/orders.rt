ghost use Rattle.std.specs.Prelude.{◌≡◌, ◌==◌, ◌∷◌, ◌++◌, [], map, not, IfOk, OnOk};
ghost use Rattle.std.specs.List.{filter};
ghost use Rattle.nim_place.specs.Extends.{single_with, singles_of};
ghost use Rattle.nim_place.specs.Stands.{commands_for};
ghost use Rattle.nim_message.specs.declared.order.ToWorker.{ToWorker as order_type};
ghost use Rattle.nim_place.specs.Directed.{directed};
ghost use Rattle.nim_course.specs.OrdersGiven as spec;

use nim_base::{Epoch, Instance, NoMemory, Seq, Short, Worker};
use nim_command::{Command, Kind};
use nim_message::ToWorker;
use std::alloc::Global;

/// An instance that no `do` has.
const NO_INSTANCE: Instance = 4_294_967_295;

/// One command alone, numbered 0.
pub(crate) fn command_of(alloc: Global, kind: Kind) -> Command
    ensures { result ≡ spec.lone_command kind }
{
    Command {
        id: 0,
        kind,
        before: Short::new(alloc),
    }
}

/// Gives a worker a command alone, in a Single which is of no instance.
pub(crate) fn push_alone(
    alloc: Global,
    orders: &mut Vec<(Worker, ToWorker)>,
    epoch: Epoch,
    worker: Worker,
    command: Command,
) -> Result<(), NoMemory>
    ensures { OnOk result (orders.new.items ≡ orders.old.items ++ spec.single_for epoch (worker, command) ∷ []) }
{
    let mut commands = Seq::new(alloc);
    commands.push(command)?;
    let order = ToWorker::Single {
        epoch,
        instance: NO_INSTANCE,
        commands,
    };
    Ok(orders.push((worker, order))?)
}

/// Gives each worker its commands in one Single, ascending by worker; a worker without commands gets none.
pub(crate) fn push_singles(
    alloc: Global,
    orders: &mut Vec<(Worker, ToWorker)>,
    workers: u16,
    epoch: Epoch,
    instance: Instance,
    commands: Vec<(Worker, Command)>,
) -> Result<(), NoMemory>
    ensures { OnOk result (orders.new.items
        ≡ orders.old.items ++ directed workers (singles_of epoch instance commands.items)) }
{
    let mut left = commands;
    for number in 0..workers {
        let taken = take_for(alloc, &mut left, Worker(number))?;
        push_single(orders, epoch, instance, Worker(number), taken)?;
    }
    Ok(())
}

/// Takes out the commands of a worker, in order; the others are left, in order.
fn take_for(
    alloc: Global,
    commands: &mut Vec<(Worker, Command)>,
    worker: Worker,
) -> Result<Vec<Command>, NoMemory>
    ensures taken { IfOk result (λ taken. taken.items ≡ commands_for worker commands.old.items) }
    ensures left { OnOk result (commands.new.items ≡ filter (λ c. not (c.0.0 == worker.0)) commands.old.items) }
{
    let mut taken = Vec::new(alloc);
    let mut at = 0;
    while at < commands.len() {
        if commands[at].0.0 == worker.0 {
            taken.push(commands.remove(at).1)?;
        } else {
            at += 1;
        }
    }
    Ok(taken)
}

/// Gives a worker these commands in one Single, if there are any.
fn push_single(
    orders: &mut Vec<(Worker, ToWorker)>,
    epoch: Epoch,
    instance: Instance,
    worker: Worker,
    commands: Vec<Command>,
) -> Result<(), NoMemory>
    ensures { OnOk result (orders.new.items
        ≡ orders.old.items ++ map (λ (order : order_type). (worker, order))
        (single_with epoch instance commands.items)) }
{
    if commands.is_empty() {
        return Ok(());
    }
    let order = ToWorker::Single {
        epoch,
        instance,
        commands: Seq::from_vec(commands),
    };
    Ok(orders.push((worker, order))?)
}
