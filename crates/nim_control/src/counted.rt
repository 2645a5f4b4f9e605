ghost use Rattle.std.specs.Prelude.{◌≡◌};
ghost use Rattle.nim_course.specs.Summaries as spec;

use nim_base::Worker;
use nim_command::{Command, Kind};
use nim_course::Summary;
use nim_message::ToWorker;
use nim_reuse::DecisionMap;

/// Counts orders that were given, where these templates are installed. Takes no memory.
pub(crate) fn count_orders(
    summary: &mut Summary,
    decisions: &DecisionMap,
    orders: &[(Worker, ToWorker)],
)
    ensures { summary.new ≡ spec.orders_counted decisions.now orders.now summary.old }
{
    for given in orders {
        let tasks = tasks_for(decisions, given.0, &given.1);
        summary.count_order(given.0, &given.1, tasks);
    }
}

/// How many tasks an order stands for at a worker.
fn tasks_for(decisions: &DecisionMap, worker: Worker, order: &ToWorker) -> u64
    ensures { result ≡ spec.tasks_for decisions.now worker order.now }
{
    match order {
        ToWorker::Single { commands, .. } => runs_among(commands.as_slice()),
        ToWorker::Instantiate { block, .. } => decisions.tasks(*block, worker),
        _ => 0,
    }
}

/// How many of these commands run a task.
fn runs_among(commands: &[Command]) -> u64
    ensures { result ≡ spec.runs_among commands.now }
{
    let mut runs = 0;
    for command in commands {
        if matches!(command.kind, Kind::Run { .. }) {
            runs += 1;
        }
    }
    runs
}
