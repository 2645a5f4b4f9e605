ghost use Rattle.std.specs.Prelude.{◌≡◌, ◌≤◌, if◌then◌else◌, IfOk, IsTrue, Some as some};
ghost use Rattle.nim_job.specs.Serial.{serial_of};
ghost use Rattle.nim_job.specs.Whole.{is_whole};
ghost use Rattle.nim_cluster.specs.Stands.{ClusterStands};
ghost use Rattle.nim_lockstep.specs.Cluster.{ClusterState};
ghost use Rattle.nim_top.specs.Answer.{EndsAndTells, Ends, KeepsCluster, WritesText, TellsSummary, is_summary_told, outside_with, status_of};
ghost use Rattle.nim_top.specs.Parts.{Finishes, Leaves, MayPrint, SumsUp, SumsUpState};
ghost use Rattle.nim_top.specs.Words.{sums_up, texts_of};
ghost use Rattle.nim_top.specs.declared.verb.Verb.TheVariants as verb;

use crate::Status;
use crate::load::load;
use crate::read::{Plan, read, refused};
use crate::replayed::Replayed;
use crate::status::Outcome;
use crate::tell::{print, tell};
use crate::verb::Verb;
use nim_base::NoMemory;
use nim_cluster::{Cluster, RunOutcome, let_go, run};
use nim_course::Setup;
use nim_io::{Files, Sink};
use nim_lockstep::events_go_on;
use std::alloc::Global;

/// The command `replay DRIVER`, with `--data FILE`, `--workers N`, `--place P`, `--schedule FILE` and `--summary` if
/// need be: reads the files, runs the driver's tasks on a cluster, and writes what they print to `out`. How it ended
/// goes to `err`, or where all is done and the words ask for it the summary of the cluster. How it may end is `Ends` of
/// `specs/Answer.antt`. Where a job was run its cluster is kept.
pub fn top_replay<L: Files, K: Sink>(
    alloc: Global,
    words: &[String],
    files: &mut L,
    out: &mut K,
    err: &mut K,
    kept: &mut Option<Cluster>,
) -> Status
    ensures answers { EndsAndTells verb.Replay (texts_of words.now)
        (outside_with (L.told files.old) (L.faults files.old) (K.written out.old) (K.faults out.old))
        (outside_with (L.told files.new) (L.faults files.new) (K.written out.new) (K.faults out.new))
        (WritesText (K.written err.old) (K.written err.new) (K.faults err.old) (K.faults err.new)) result.0 }

    /// Each task that the kept cluster ran read the versions that program order names.
    ensures kept { KeepsCluster (L.told files.old) (texts_of words.now) result.0 kept.old kept.new }
    ensures summary { TellsSummary (texts_of words.now)
        (WritesText (K.written err.old) (K.written err.new) (K.faults err.old) (K.faults err.new)) result.0 kept.new }
{
    let replayed = replay(alloc, words, files, out, kept);
    tell(replayed.told(), err);
    replayed.outcome.status()
}

/// All but what is told on standard error.
fn replay<L: Files, K: Sink>(
    alloc: Global,
    words: &[String],
    files: &mut L,
    out: &mut K,
    kept: &mut Option<Cluster>,
) -> Replayed
    ensures ends { Ends verb.Replay (texts_of words.now)
        (outside_with (L.told files.old) (L.faults files.old) (K.written out.old) (K.faults out.old))
        (outside_with (L.told files.new) (L.faults files.new) (K.written out.new) (K.faults out.new)) result.outcome }
    ensures kept { KeepsCluster (L.told files.old) (texts_of words.now) (status_of result.outcome) kept.old kept.new }
    ensures summary { SumsUp (sums_up verb.Replay (texts_of words.now)) result kept.new }
{
    let inputs = match load(alloc, Verb::Replay, words, files) {
        Ok(inputs) => inputs,
        Err(outcome) => return Replayed::without_summary(outcome),
    };
    match read(alloc, &inputs) {
        Ok(plan) => follow(alloc, plan, inputs.setup, inputs.summary, out, kept),
        Err(fault) => Replayed::without_summary(refused(alloc, fault)),
    }
}

/// Runs a job by its schedule, writes what it prints, and keeps its cluster. The summary is made where it is asked for.
fn follow<K: Sink>(
    alloc: Global,
    plan: Plan,
    setup: Setup,
    is_asked: bool,
    out: &mut K,
    kept: &mut Option<Cluster>,
) -> Replayed
    requires whole { IsTrue (is_whole plan.job) }
    requires least { 1 ≤ setup.workers }
    requires most { setup.workers ≤ 16 }
    ensures ends { Finishes (serial_of plan.job)
        (K.written out.old) (K.written out.new) (K.faults out.old) (K.faults out.new) result.outcome }
    ensures kept { Leaves plan setup (status_of result.outcome) kept.old kept.new }
    ensures summary { SumsUp is_asked result kept.new }
{
    events_go_on();
    let Plan { job, schedule } = plan;
    let Ok(end) = run(alloc, job, setup, schedule.as_slice()) else {
        return Replayed::without_summary(Outcome::Memory);
    };
    let replayed = match end.outcome {
        RunOutcome::Done => done(alloc, &end.cluster, is_asked, out),
        RunOutcome::Limit => Replayed::without_summary(Outcome::Limit),
        RunOutcome::Stalled => Replayed::without_summary(Outcome::Stalled),
        /// No worker is lost yet.
        RunOutcome::NoWorker => unreachable!(),
    };
    keep(kept, end.cluster, replayed.outcome.has_run());
    replayed
}

/// Writes what a job printed that is done. The summary is made before, so that memory is refused before or not at all.
fn done<K: Sink>(alloc: Global, cluster: &Cluster, is_asked: bool, out: &mut K) -> Replayed
    ensures prints { (s : ClusterState) → ClusterStands cluster.now s → MayPrint s.control.machine.driver.output
        (K.written out.old) (K.written out.new) (K.faults out.old) (K.faults out.new) result.outcome }
    ensures summary { (s : ClusterState) → ClusterStands cluster.now s
        → SumsUpState (is_summary_told is_asked result.outcome) result.summary s }
{
    let Ok(summary) = summary_text(alloc, cluster, is_asked) else {
        return Replayed::without_summary(Outcome::Memory);
    };
    match print(cluster.output(), out) {
        Outcome::Done => Replayed {
            outcome: Outcome::Done,
            summary,
        },
        outcome => Replayed::without_summary(outcome),
    }
}

/// The summary of a cluster, where it is asked for.
fn summary_text(
    alloc: Global,
    cluster: &Cluster,
    is_asked: bool,
) -> Result<Option<Vec<u8>>, NoMemory>
    ensures { (s : ClusterState) → ClusterStands cluster.now s → IfOk result (λ text. SumsUpState is_asked text s) }
{
    if is_asked {
        Ok(Some(cluster.summary().text(alloc)?))
    } else {
        Ok(None)
    }
}

/// Puts a cluster that is kept where the caller says, in place of what was there. The other one is let go of.
fn keep(kept: &mut Option<Cluster>, cluster: Cluster, is_kept: bool)
    ensures { kept.new ≡ if is_kept then some cluster else kept.old }
{
    let_go(if is_kept {
        kept.replace(cluster)
    } else {
        Some(cluster)
    });
}
