ghost use Rattle.std.specs.Prelude.{◌≡◌, ◌<◌, ◌≤◌, ◌++◌, length, slice_get, slice_set, IfOk, IsSomeAnd, OnErr, OnOk};
ghost use Rattle.nim_place.specs.Extends.{is_live};
ghost use Rattle.nim_place.specs.Placement as placement;
ghost use Rattle.nim_place.specs.Schedule as schedule;
ghost use Rattle.nim_place.specs.Versions as versions;
ghost use Rattle.nim_reuse.specs.declared.decided.Decided.{Decided as decided_type};
ghost use Rattle.nim_reuse.specs.Decisions.{decided_of};
ghost use Rattle.nim_reuse.specs.Reuse as reuses;
ghost use Rattle.nim_control.specs.Sites.{AreSites, SitesStay, new_sites};

use nim_base::{NoMemory, Object, Position, Task, Version, Worker};
use nim_command::Command;
use nim_course::Setup;
use nim_message::ToWorker;
use nim_place::{Placement, VersionMap, home, schedule_task};
use nim_reuse::{DecisionMap, InstanceAt, Reused};
use std::alloc::Global;
use std::marker::Model;

/// Where data is placed and lies, and which workers are live: contracts see `Sites` of `specs/Sites.antt`.
#[derive(Drop)]
pub(crate) struct SiteMap {
    place: Placement,
    live: Vec<bool>,
    versions: VersionMap,
}

impl Model for SiteMap {
    ghost use Rattle.nim_control.specs.Sites.{AreSites, Sites};

    ghost Value = { Sites };

    ghost view = { λ s. record { place = s.place; live = s.live.items; versions = s.versions } };

    ghost invariant = { λ s. AreSites (record { place = s.place; live = s.live.items; versions = s.versions }) };
}

impl SiteMap {
    /// All workers are live, and nothing lies anywhere.
    pub(crate) fn new(alloc: Global, setup: Setup, objects: u16) -> Result<SiteMap, NoMemory>
        requires some { 1 ≤ setup.workers }
        requires few { setup.workers ≤ 16 }
        requires objects { objects ≤ 512 }
        ensures { IfOk result (λ sites. sites ≡ new_sites setup objects) }
    {
        Ok(SiteMap {
            place: setup.place,
            live: vec![in alloc; true; usize::from(setup.workers)]?,
            versions: VersionMap::new(alloc, setup.workers, objects)?,
        })
    }

    /// How many workers there are.
    pub(crate) fn workers(&self) -> u16
        ensures workers { result ≡ length self.now.live }
        ensures form { AreSites self.now }
    {
        self.versions.workers()
    }

    /// Whether a worker is live.
    pub(crate) fn is_live(&self, worker: Worker) -> bool
        ensures { result ≡ is_live self.now.live worker }
    {
        match self.live.get(usize::from(worker.0)) {
            Some(live) => *live,
            None => false,
        }
    }

    /// Where an object is placed.
    pub(crate) fn home(&self, object: Object) -> Worker
        requires { object.0 < self.now.versions.objects }
        ensures { result ≡ placement.home self.now.place object self.now.versions.objects self.now.live }
    {
        home(
            &self.place,
            object,
            self.versions.objects(),
            self.live.as_slice(),
        )
    }

    /// Who runs a task.
    pub(crate) fn owner(&self, task: &Task) -> Worker
        requires { IsSomeAnd (slice_get task.now.writes 0) (λ object. object.0 < self.now.versions.objects) }
        ensures { result ≡ schedule.owner_of self.now.place task.now self.now.versions.objects self.now.live }
    {
        self.home(task.writes.as_slice()[0])
    }

    /// The lowest worker that holds the latest version of an object.
    pub(crate) fn holder(&self, object: Object) -> Option<Worker>
        ensures { result ≡ versions.holder self.now.versions object }
    {
        self.versions.holder(object)
    }

    /// The latest version of an object.
    pub(crate) fn latest(&self, object: Object) -> Version
        ensures { result ≡ versions.latest_of self.now.versions object }
    {
        self.versions.latest(object)
    }

    /// Takes in what a worker's command leaves in main slots.
    pub(crate) fn take(&mut self, worker: Worker, command: &Command)
        ensures taken { self.new ≡ record self.old {
          versions = versions.after_kind worker self.old.versions command.now.kind;
        } }
        ensures stay { SitesStay self.old self.new }
    {
        self.versions.apply_command(worker, command);
    }

    /// The commands that the task at a position needs, each with its worker. The map takes them in. Where memory is
    /// refused all is as it was.
    pub(crate) fn schedule(
        &mut self,
        alloc: Global,
        task: &Task,
        number: u16,
        position: Position,
    ) -> Result<Vec<(Worker, Command)>, NoMemory>
        requires { IsSomeAnd (slice_get task.now.writes 0) (λ object. object.0 < self.old.versions.objects) }
        ensures commands { IfOk result (λ commands. commands.items
            ≡ schedule.scheduled self.old.versions task.now number position self.old.place self.old.live) }
        ensures ok { IfOk result (λ commands. self.new ≡ record self.old {
          versions = versions.after_commands self.old.versions commands.items;
        }) }
        ensures err { OnErr result (self.new ≡ self.old) }
        ensures stay { SitesStay self.old self.new }
    {
        schedule_task(
            alloc,
            &mut self.versions,
            task,
            number,
            position,
            &self.place,
            self.live.as_slice(),
        )
    }

    /// Gives the orders of an instance of a block that was recorded, as `DecisionMap::reuse` does. The map takes in
    /// what it leaves.
    pub(crate) fn reuse(
        &mut self,
        alloc: Global,
        orders: &mut Vec<(Worker, ToWorker)>,
        decisions: &mut DecisionMap,
        at: &InstanceAt,
        args: &[i64],
    ) -> Result<Reused, NoMemory>
        requires block { at.now.block < length decisions.old.blocks }
        requires may { reuses.CanReuse self.old.versions.objects self.old.live at.now.block
            (decided_of decisions.old at.now.block) }
        ensures orders { OnOk result (orders.new.items ≡ orders.old.items
            ++ reuses.orders_at self.old.place self.old.live at.now args.now self.old.versions decisions.old) }
        ensures map { OnOk result (self.new ≡ record self.old {
          versions = reuses.versions_at self.old.place self.old.live at.now self.old.versions decisions.old;
        }) }
        ensures reused { IfOk result (λ reused. reused
            ≡ reuses.reused_at self.old.place self.old.live at.now self.old.versions decisions.old) }
        ensures decisions { OnOk result (decisions.new
            ≡ reuses.decisions_at self.old.place self.old.live at.now self.old.versions decisions.old) }
        ensures refused { OnErr result (decisions.new.blocks
            ≡ slice_set decisions.old.blocks at.now.block decided_type.Open) }
        ensures stay { SitesStay self.old self.new }
    {
        decisions.reuse(
            alloc,
            orders,
            &mut self.versions,
            &self.place,
            self.live.as_slice(),
            at,
            args,
        )
    }
}
