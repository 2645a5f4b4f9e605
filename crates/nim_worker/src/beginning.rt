ghost use Rattle.std.specs.Prelude.{◌≡◌, ◌≤◌, ◌<◌, ◌+◌, ◌++◌, ◌∷◌, [], ℕ, false, true, if◌then◌else◌, nat_lt, List, None, Some, All, IfSome, IsSome, IsTrue, length};
ghost use Rattle.std.specs.Vec.{vec_capacity, vec_len};
ghost use Rattle.nim_job.specs.declared.job.Job.{Job as job_type};
ghost use Rattle.nim_job.specs.Whole.{is_whole};
ghost use Rattle.nim_history.specs.History.{Happening, MayComplete, WorkerState, asked_at, has_frame, state_of};
ghost use Rattle.nim_history.specs.Truth.{IsHandedTruth};
ghost use Rattle.nim_queue.specs.Stands.{outstanding_command, is_after, is_released, ready_of};
ghost use Rattle.nim_order.specs.Progress.{is_one_of};
ghost use Rattle.nim_command.specs.Waits.{Group as group_type};
ghost use Rattle.nim_worker.specs.Admitted.{IsAdmitted};
ghost use Rattle.nim_worker.specs.Beginning.{MayBeBegun};
ghost use Rattle.nim_worker.specs.Inputs.{AreIdle};
ghost use Rattle.nim_worker.specs.Right.{ReadsRight};
ghost use Rattle.nim_worker.specs.Runs.{all_read_by, runs_read};
ghost use Rattle.nim_worker.specs.Stands.{HasRoom, HasState, IsBeginning, CoreStands, tickets_of};
ghost use Rattle.nim_worker.specs.Taken.{has_released, is_taken_behind, taken_of};

use crate::admitted::Admitted;
use crate::inputs::Inputs;
use crate::meets::{key_of, meets_any};
use crate::room::Room;
use crate::{Batch, Work, WorkerCore};
use nim_store::Store;
use std::alloc::Global;

impl WorkerCore {
    /// Begins a batch: in the order given each command that may be completed and that touches no slot which the batch
    /// touches, at most so many. A Receive may be completed when its frame is there too, and no other of the batch
    /// receives it. Takes no memory. A core that has failed begins an empty batch.
    pub fn begin(&mut self, most: u16) -> Batch
        requires least { 1 ≤ most }
        requires most { most ≤ 16 }
        requires free { self.old.busy ≡ false }
        ensures stands { (history : List Happening) → CoreStands self.old None history
            → CoreStands self.new (Some result) history }
        ensures taken { (history : List Happening) → CoreStands self.old None history
            → tickets_of result.works.items ≡ taken_of (state_of history) most }
        ensures empty { (history : List Happening) → CoreStands self.old None history → result.works.items ≡ []
            → (place : ℕ) → MayComplete (state_of history) place → ⊥ }
        ensures epoch { result.epoch ≡ self.old.epoch }
        ensures stale { self.new.stale ≡ self.old.stale }
        ensures reads { (job : job_type) (history : List Happening) → IsTrue (is_whole job) → IsHandedTruth job history
            → CoreStands self.old None history
            → All (ReadsRight job) result.works.items }
        ensures runs { (history : List Happening) → CoreStands self.old None history
            → all_read_by result.works.items ≡ runs_read (state_of history) (tickets_of result.works.items) }
        ensures worker { self.new.worker ≡ self.old.worker }
        ensures failed { self.old.failed ≡ true → result.works.items ≡ [] }
        ensures stays { self.new.failed ≡ self.old.failed }
    {
        self.busy = true;
        if self.failed {
            return self.empty_batch();
        }
        match self.room.take() {
            Some(room) => self.fill(most, room),
            None => self.empty_batch(),
        }
    }

    /// Whether a batch that is begun now would take a command.
    pub fn is_ready(&self) -> bool
        ensures { (history : List Happening) → CoreStands self.now None history
            → result ≡ has_released (state_of history) }
    {
        let mut after = None;
        while let Some(ticket) = self.admitted.ready(after) {
            if self.has_frame(ticket) {
                return true;
            }
            after = Some(ticket);
        }
        false
    }

    fn empty_batch(&self) -> Batch
        ensures epoch { result.epoch ≡ self.now.epoch }
        ensures works { result.works.items ≡ [] }
    {
        Batch {
            epoch: self.epoch,
            works: Vec::new(self.alloc),
            spare: Vec::new(self.alloc),
        }
    }

    /// Begins a batch in the room that there is.
    fn fill(&mut self, most: u16, room: Room) -> Batch
        requires { most ≤ 16 }
        ensures epoch { result.epoch ≡ self.old.epoch }
        ensures rest { self.new ≡ record self.old { store = self.new.store } }
        ensures begins { (state : WorkerState) → IsBeginning self.old [] state
            → IsBeginning self.new result.works.items state }
        ensures taken { (state : WorkerState) → IsBeginning self.old [] state
            → tickets_of result.works.items ≡ taken_of state most }
        ensures room { HasRoom result }
    {
        let Room {
            mut works,
            inputs: mut spare,
        } = room;
        self.take_ready(most, &mut works, &mut spare);
        Batch {
            epoch: self.epoch,
            works,
            spare,
        }
    }

    /// Takes one released command after another.
    fn take_ready(&mut self, most: u16, works: &mut Vec<Work>, spare: &mut Vec<Box<Inputs>>)
        requires none { works.old.items ≡ [] }
        requires most { most ≤ vec_capacity works.old }
        requires enough { most ≤ vec_len spare.old }
        requires idle { AreIdle spare.old.items }
        ensures rest { self.new ≡ record self.old { store = self.new.store } }
        ensures begins { (state : WorkerState) → IsBeginning self.old [] state
            → IsBeginning self.new works.new.items state }
        ensures taken { (state : WorkerState) → IsBeginning self.old [] state
            → tickets_of works.new.items ≡ taken_of state most }
        ensures idle { AreIdle spare.new.items }
        ensures count { vec_len works.new + vec_len spare.new ≡ vec_len spare.old }
        ensures room { vec_capacity works.new ≡ vec_capacity works.old }
    {
        let mut after = None;
        while let Some(ticket) = self.next(most, works.as_slice(), after) {
            self.take_one(ticket, works, spare);
            after = Some(ticket);
        }
    }

    /// The ticket of the next released command, while the batch isn't full.
    fn next(&self, most: u16, works: &[Work], after: Option<u64>) -> Option<u64>
        ensures first { (groups : List group_type) (ran : List ℕ) → IsAdmitted self.now.admitted groups ran
            → result ≡ (if nat_lt (length works.now) most then ready_of groups (is_one_of ran) after else None) }
        ensures later { IfSome result (λ ticket. is_after after ticket ≡ true) }
        ensures more { IsSome result → length works.now < most }
    {
        if works.len() < usize::from(most) {
            self.admitted.ready(after)
        } else {
            None
        }
    }

    /// Takes a released command, where it may be.
    fn take_one(&mut self, ticket: u64, works: &mut Vec<Work>, spare: &mut Vec<Box<Inputs>>)
        requires room { vec_len works.old < vec_capacity works.old }
        requires enough { 1 ≤ vec_len spare.old }
        requires idle { AreIdle spare.old.items }
        ensures rest { self.new ≡ record self.old { store = self.new.store } }
        ensures begins { (state : WorkerState) → IsBeginning self.old works.old.items state
            → is_released state.session.groups (is_one_of state.ran) ticket ≡ true
            → IsBeginning self.new works.new.items state }
        ensures taken { (state : WorkerState) → IsBeginning self.old works.old.items state
            → is_released state.session.groups (is_one_of state.ran) ticket ≡ true
            → tickets_of works.new.items
            ≡ (if is_taken_behind state
            (tickets_of works.old.items) ticket then tickets_of works.old.items ++ ticket ∷ []
            else tickets_of works.old.items) }
        ensures idle { AreIdle spare.new.items }
        ensures count { vec_len works.new + vec_len spare.new ≡ vec_len works.old + vec_len spare.old }
        ensures more { vec_len works.new ≤ vec_len works.old + 1 }
        ensures room { vec_capacity works.new ≡ vec_capacity works.old }
    {
        if self.has_frame(ticket) && !meets_any(&self.admitted, works.as_slice(), ticket) {
            begin_work(
                self.alloc,
                &self.admitted,
                &mut self.store,
                ticket,
                works,
                spare,
            );
        }
    }

    /// Whether the frame that a command receives is there, if it receives one.
    fn has_frame(&self, ticket: u64) -> bool
        ensures { (state : WorkerState) → HasState self.now state → is_one_of state.ran ticket ≡ false
            → IfSome (asked_at state.session.groups ticket) (λ asked. result ≡ has_frame state asked) }
    {
        match key_of(&self.admitted, ticket) {
            Some(key) => self.inbox.has(&key),
            None => true,
        }
    }
}

/// Begins the work of a command that isn't complete, and takes its inputs.
fn begin_work(
    alloc: Global,
    admitted: &Admitted,
    store: &mut Store,
    ticket: u64,
    works: &mut Vec<Work>,
    spare: &mut Vec<Box<Inputs>>,
)
    requires room { vec_len works.old < vec_capacity works.old }
    requires enough { 1 ≤ vec_len spare.old }
    requires idle { AreIdle spare.old.items }
    ensures work { (groups : List group_type) (ran : List ℕ) → IsAdmitted admitted.now groups ran
        → MayBeBegun store.old works.old.items ticket store.new works.new.items
        (outstanding_command groups (is_one_of ran) ticket) }
    ensures shapes { store.new.shapes ≡ store.old.shapes }
    ensures idle { AreIdle spare.new.items }
    ensures count { vec_len works.new + vec_len spare.new ≡ vec_len works.old + vec_len spare.old }
    ensures more { vec_len works.new ≤ vec_len works.old + 1 }
    ensures room { vec_capacity works.new ≡ vec_capacity works.old }
{
    let Some(command) = admitted.command(ticket) else {
        return;
    };
    if let Some(inputs) = spare.pop() {
        works.push_reserved(Work::new(alloc, ticket, &command.kind, inputs, store));
    }
}
