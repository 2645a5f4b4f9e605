ghost use Rattle.std.specs.Prelude.{◌≡◌, ◌≤◌, ◌+◌, ◌++◌, ◌∷◌, [], ℕ, true, false, List, None, Some, All, IfOk, IsErr, IsTrue, OnErr, OnOk, length};
ghost use Rattle.std.specs.FinMap as map;
ghost use Rattle.std.specs.Option.{is_some, option_and_then, option_map_or, option_to_list};
ghost use Rattle.std.specs.Vec.{vec_capacity, vec_len};
ghost use Rattle.nim_job.specs.declared.job.Job.{Job as job_type};
ghost use Rattle.nim_job.specs.Whole.{is_whole};
ghost use Rattle.nim_history.specs.declared.out.Out.{Out as out_type};
ghost use Rattle.nim_command.specs.Waits.{Group as group_type};
ghost use Rattle.nim_store.specs.declared.key.Key.{Key as key_type};
ghost use Rattle.nim_store.specs.Stored.{slot_at};
ghost use Rattle.nim_history.specs.History as history;
ghost use Rattle.nim_history.specs.History.{Asked, Happening, WorkerState, completed, state_of};
ghost use Rattle.nim_history.specs.Truth.{IsGoodOut, IsHandedTruth};
ghost use Rattle.nim_worker.specs.declared.batch.Work.{Work as work_type};
ghost use Rattle.nim_worker.specs.Admitted.{group_head};
ghost use Rattle.nim_worker.specs.Chains.{AreWorks};
ghost use Rattle.nim_worker.specs.Finishing.{HasLeft, through_of};
ghost use Rattle.nim_worker.specs.Inputs.{AreIdle, IsIdle};
ghost use Rattle.nim_worker.specs.Stands.{Gave, HasState, IsAtWork, CoreStands, after_completions, completions_of, outs_at, tickets_of};
ghost use Rattle.nim_worker.specs.Works.{Begun as begun_type};

use crate::admitted::Ended;
use crate::complete::complete;
use crate::head::GroupHead;
use crate::inputs::Inputs;
use crate::meets::key_received;
use crate::room::{MOST_WORKS, Room};
use crate::{Batch, Work, WorkerCore};
use nim_base::{NoMemory, Value};
use nim_command::Kind;
use nim_history::Out;
use nim_message::FromWorker;
use nim_store::Inbox;

impl WorkerCore {
    /// Finishes the batch that is out: performs what wasn't performed, leaves in the slots what its commands leave, in
    /// order, and gives for each its report or frame, and then the Through where it was the last of its instance. A
    /// batch begun before the last Reset is dropped. Once memory was refused the core has failed, and each later call
    /// answers so.
    pub fn finish(&mut self, batch: Batch) -> Result<Vec<Out>, NoMemory>
        ensures stands { (history : List Happening) → CoreStands self.old (Some batch) history
            → OnOk result (CoreStands self.new None (history ++ completions_of self.old batch)) }
        ensures outs { (history : List Happening) → CoreStands self.old (Some batch) history
            → IfOk result (λ outs. Gave (state_of history) outs.items
            (state_of (history ++ completions_of self.old batch))) }
        ensures good { (job : job_type) (history : List Happening) → IsTrue (is_whole job) → IsHandedTruth job history
            → CoreStands self.old (Some batch) history
            → IfOk result (λ outs. All (IsGoodOut job) outs.items) }
        ensures worker { self.new.worker ≡ self.old.worker }
        ensures failed { OnErr result (self.new.failed ≡ true) }
        ensures stays { self.old.failed ≡ true → IsErr result }
    {
        if self.failed {
            return Err(NoMemory);
        }
        let finished = self.end(batch);
        self.failed = finished.is_err();
        finished
    }

    /// All but the mark of a failure.
    fn end(&mut self, batch: Batch) -> Result<Vec<Out>, NoMemory>
        ensures stands { (history : List Happening) → CoreStands self.old (Some batch) history
            → OnOk result (CoreStands self.new None (history ++ completions_of self.old batch)) }
        ensures outs { (history : List Happening) → CoreStands self.old (Some batch) history
            → IfOk result (λ outs. Gave (state_of history) outs.items
            (state_of (history ++ completions_of self.old batch))) }
        ensures worker { self.new.worker ≡ self.old.worker }
    {
        self.busy = false;
        if self.stale {
            self.stale = false;
            return Ok(Vec::new(self.alloc));
        }
        let Batch {
            mut works,
            mut spare,
            ..
        } = batch;
        let outs = self.complete_all(&mut works, &mut spare)?;
        self.put_back(works, spare);
        Ok(outs)
    }

    /// Completes the commands of works, in order; their inputs come to the others.
    fn complete_all(
        &mut self,
        works: &mut Vec<Work>,
        spare: &mut Vec<Box<Inputs>>,
    ) -> Result<Vec<Out>, NoMemory>
        ensures at { (state : WorkerState) → HasState self.old state → IsAtWork self.old works.old.items state
            → OnOk result (HasState self.new (after_completions state (tickets_of works.old.items))) }
        ensures work { (state : WorkerState) → HasState self.old state → IsAtWork self.old works.old.items state
            → OnOk result (IsAtWork self.new [] (after_completions state (tickets_of works.old.items))) }
        ensures outs { (state : WorkerState) → HasState self.old state → IsAtWork self.old works.old.items state
            → IfOk result (λ outs. Gave state outs.items (after_completions state (tickets_of works.old.items))) }
        ensures none { OnOk result (works.new.items ≡ []) }
        ensures inputs { AreIdle spare.old.items → OnOk result (AreIdle spare.new.items) }
        ensures count { OnOk result (vec_len spare.new ≡ vec_len spare.old + vec_len works.old) }
        ensures room { vec_capacity works.new ≡ vec_capacity works.old }
        ensures busy { self.new.busy ≡ self.old.busy }
        ensures stale { self.new.stale ≡ self.old.stale }
        ensures begun { self.new.begun ≡ self.old.begun }
        ensures worker { self.new.worker ≡ self.old.worker }
    {
        let mut outs = Vec::new(self.alloc);
        works.as_mut_slice().reverse();
        while let Some(work) = works.pop() {
            let inputs = self.complete_one(work, &mut outs)?;
            spare.push(inputs)?;
        }
        Ok(outs)
    }

    /// Completes the command of a work, the first of those that are out.
    fn complete_one(&mut self, work: Work, outs: &mut Vec<Out>) -> Result<Box<Inputs>, NoMemory>
        ensures at { (state : WorkerState) (works : List work_type) → HasState self.old state
            → IsAtWork self.old (work ∷ works) state
            → OnOk result (HasState self.new (completed state work.ticket)) }
        ensures works { (state : WorkerState) (works : List work_type) → HasState self.old state
            → IsAtWork self.old (work ∷ works) state
            → OnOk result (IsAtWork self.new works (completed state work.ticket)) }
        ensures outs { (state : WorkerState) (works : List work_type) → HasState self.old state
            → IsAtWork self.old (work ∷ works) state
            → OnOk result (outs.new.items ≡ outs.old.items ++ outs_at state work.ticket) }
        ensures idle { IfOk result (λ inputs. IsIdle inputs.value) }
        ensures busy { self.new.busy ≡ self.old.busy }
        ensures stale { self.new.stale ≡ self.old.stale }
        ensures begun { self.new.begun ≡ self.old.begun }
        ensures worker { self.new.worker ≡ self.old.worker }
    {
        match self.admitted.complete(work.ticket) {
            Some(ended) => self.leave(work, ended, outs),
            None => Err(NoMemory),
        }
    }

    /// Leaves and gives what a complete command does, with the frame that it receives.
    fn leave(
        &mut self,
        work: Work,
        ended: Ended,
        outs: &mut Vec<Out>,
    ) -> Result<Box<Inputs>, NoMemory>
        ensures rest { self.new ≡ record self.old { store = self.new.store; inbox = self.new.inbox } }
        ensures left { (state : WorkerState) (asked : Asked) (begun : begun_type) (more : List begun_type)
            (works : List work_type)
            → self.old.inbox ≡ state.inbox → ended.command ≡ asked.command → ended.head ≡ group_head asked.group
            → begun.kind ≡ asked.command.kind
            → AreWorks self.old.store.shapes state.slots (slot_at self.old.store) (begun ∷ more) (work ∷ works)
            → OnOk result (HasLeft self.old.store.shapes state asked more works outs.old.items ended.through self.new
            outs.new.items) }
        ensures idle { IfOk result (λ inputs. IsIdle inputs.value) }
    {
        let Ended {
            command,
            head,
            through,
        } = ended;
        let frame = take_frame(&mut self.inbox, head, command.id, &command.kind);
        let (out, inputs) = complete(self.alloc, head, &mut self.store, work, command, frame)?;
        give(outs, out)?;
        tell_through(outs, head, through)?;
        Ok(inputs)
    }

    /// The room of a batch comes back.
    fn put_back(&mut self, works: Vec<Work>, inputs: Vec<Box<Inputs>>)
        requires none { works.items ≡ [] }
        requires idle { AreIdle inputs.items }
        ensures rest { self.new ≡ record self.old { room = self.new.room } }
        ensures room { 16 ≤ vec_capacity works → 16 ≤ vec_len inputs → is_some self.new.room ≡ true }
    {
        if works.capacity() >= MOST_WORKS && inputs.len() >= MOST_WORKS {
            self.room = Some(Room { works, inputs });
        }
    }
}

/// Takes the frame that a command receives out of the inbox, if it receives one and the frame is there.
fn take_frame(inbox: &mut Inbox, head: GroupHead, number: u32, kind: &Kind) -> Option<Value>
    ensures value { (group : group_type) → head.epoch ≡ group.epoch → head.instance ≡ group.instance
        → result ≡ option_and_then (λ (key : key_type). map.get inbox.old key)
        (history.key_received group number kind.now) }
    ensures rest { (group : group_type) → head.epoch ≡ group.epoch → head.instance ≡ group.instance
        → inbox.new ≡ option_map_or (λ (key : key_type). map.remove inbox.old key)
        (history.key_received group number kind.now) inbox.old }
{
    match key_received(head, number, kind) {
        Some(key) => inbox.take(&key),
        None => None,
    }
}

fn tell_through(outs: &mut Vec<Out>, head: GroupHead, through: bool) -> Result<(), NoMemory>
    ensures { OnOk result (outs.new.items ≡ outs.old.items ++ through_of head through) }
{
    if through {
        outs.push(Out::Report(FromWorker::Through {
            epoch: head.epoch,
            instance: head.instance,
        }))?;
    }
    Ok(())
}

fn give(outs: &mut Vec<Out>, out: Option<Out>) -> Result<(), NoMemory>
    ensures { OnOk result (outs.new.items ≡ outs.old.items ++ option_to_list out) }
{
    if let Some(out) = out {
        outs.push(out)?;
    }
    Ok(())
}
