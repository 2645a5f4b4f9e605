ghost use Rattle.std.specs.Prelude.{◌≡◌, ◌<◌, ◌++◌, length, slice_set, IfOk, OnErr, OnOk};
ghost use Rattle.nim_patch.specs.Patches.{after_copies, patch_copies};
ghost use Rattle.nim_reuse.specs.declared.decided.Decided.TheVariants.{Installed as installed, Open as undecided};
ghost use Rattle.nim_reuse.specs.Decisions as spec;
ghost use Rattle.nim_reuse.specs.Reuse as reuses;
ghost use Rattle.nim_reuse.specs.Reuse.{MapStays};
ghost use Rattle.nim_template.specs.Built.{built};
ghost use Rattle.nim_template.specs.MayBuild.{MayBuild};

use crate::orders::{push_instances, push_new, push_patch};
use crate::reused::{Patched, Reused};
use crate::{Decided, InstanceAt, Ready};
use nim_base::{NoMemory, Seq, Short, Slot, Worker};
use nim_command::{Command, Kind};
use nim_message::ToWorker;
use nim_patch::{Patch, PatchCache, PatchCopy, build_patch, failing};
use nim_place::{Placement, VersionMap};
use nim_template::{ControllerTemplate, build_halves};
use std::alloc::Global;
use std::marker::Model;
use std::mem;

/// The number that stands for no block.
const NO_BLOCK: u8 = 32;

/// What a controller decided of its blocks in an epoch: which were recorded, the templates that are installed, and the
/// patches that are kept. Contracts see `Decisions` of `specs/Decisions.antt`.
#[derive(Drop)]
pub struct DecisionMap {
    blocks: Vec<Decided>,
    /// The block of the last instance.
    previous: u8,
    patches: PatchCache,
}

impl Model for DecisionMap {
    ghost use Rattle.nim_reuse.specs.Decisions.{Decisions};

    ghost Value = { Decisions };

    ghost view = { λ d. record { blocks = d.blocks.items; previous = d.previous; patches = d.patches } };
}

impl DecisionMap {
    /// Nothing was decided of so many blocks.
    pub fn new(alloc: Global, blocks: usize) -> Result<DecisionMap, NoMemory>
        ensures { IfOk result (λ decisions. decisions ≡ spec.no_decisions blocks) }
    {
        let mut open = Vec::new(alloc);
        for _ in 0..blocks {
            open.push(Decided::Open)?;
        }
        Ok(DecisionMap {
            blocks: open,
            previous: NO_BLOCK,
            patches: PatchCache::new(alloc)?,
        })
    }

    /// Whether a block was recorded, so that its next instance is reused.
    pub fn is_recorded(&self, block: u8) -> bool
        ensures { result ≡ spec.is_recorded self.now block }
    {
        match self.blocks.get(usize::from(block)) {
            Some(Decided::Recorded(_)) | Some(Decided::Installed(_)) => true,
            Some(Decided::Open) | None => false,
        }
    }

    /// How many tasks a worker runs in an instance of a block, once its template is installed; 0 before. Takes no
    /// memory.
    pub fn tasks(&self, block: u8, worker: Worker) -> u64
        ensures { result ≡ spec.half_tasks self.now block worker.0 }
    {
        match self.blocks.get(usize::from(block)) {
            Some(Decided::Installed(ready)) => ready.tasks(worker),
            _ => 0,
        }
    }

    /// Takes in the record of a block whose first instance was just scheduled. Takes no memory.
    pub fn record(&mut self, recorded: ControllerTemplate)
        ensures { self.new ≡ spec.after_recording recorded self.old }
    {
        self.previous = recorded.block;
        let place = usize::from(recorded.block);
        if place < self.blocks.len() {
            self.blocks[place] = Decided::Recorded(recorded);
        }
    }

    /// Gives the orders of the next instance of a block that was recorded: at its second instance its template is built
    /// and installed, and where preconditions fail a patch goes before it. The map takes in what it leaves. What it
    /// costs doesn't grow with the block's tasks but the second time. Its meaning is in `specs/Reuse.antt`; after want
    /// of memory the map and the decisions are of no more use, and nothing is decided of the block.
    pub fn reuse(
        &mut self,
        alloc: Global,
        orders: &mut Vec<(Worker, ToWorker)>,
        map: &mut VersionMap,
        place: &Placement,
        live: &[bool],
        at: &InstanceAt,
        args: &[i64],
    ) -> Result<Reused, NoMemory>
        requires block { at.now.block < length self.old.blocks }
        requires may { reuses.CanReuse map.old.objects live.now at.now.block (spec.decided_of self.old at.now.block) }
        ensures orders { OnOk result (orders.new.items
            ≡ orders.old.items ++ reuses.orders_at place.now live.now at.now args.now map.old self.old) }
        ensures map { OnOk result (map.new ≡ reuses.versions_at place.now live.now at.now map.old self.old) }
        ensures reused { IfOk result (λ reused. reused ≡ reuses.reused_at place.now live.now at.now map.old self.old) }
        ensures decisions { OnOk result (self.new ≡ reuses.decisions_at place.now live.now at.now map.old self.old) }
        ensures refused { OnErr result (self.new.blocks ≡ slice_set self.old.blocks at.now.block undecided) }
        ensures workers { map.new.workers ≡ map.old.workers }
        ensures objects { map.new.objects ≡ map.old.objects }
    {
        let decided = self.take(at.block);
        let is_new = decided.is_new();
        let ready = ready_of(alloc, decided, place, map.objects(), live, at.block)?;
        self.give(
            alloc,
            orders,
            live.len() as u16,
            map,
            at,
            args,
            is_new,
            ready,
        )
    }

    /// What was decided of a block; nothing is then.
    fn take(&mut self, block: u8) -> Decided
        requires { block < length self.old.blocks }
        ensures decided { result ≡ spec.decided_of self.old block }
        ensures left { self.new ≡ record self.old { blocks = slice_set self.old.blocks block undecided } }
    {
        mem::replace(&mut self.blocks[usize::from(block)], Decided::Open)
    }

    /// Gives the orders of an instance of a template, which is installed then.
    fn give(
        &mut self,
        alloc: Global,
        orders: &mut Vec<(Worker, ToWorker)>,
        workers: u16,
        map: &mut VersionMap,
        at: &InstanceAt,
        args: &[i64],
        is_new: bool,
        mut ready: Ready,
    ) -> Result<Reused, NoMemory>
        requires { at.now.block < length self.old.blocks }
        ensures orders { let patched = reuses.patched_in self.old at.now.block map.old ready in
            OnOk result (orders.new.items
            ≡ orders.old.items ++ reuses.orders_by workers at.now args.now is_new patched map.old ready) }
        ensures map { OnOk result (map.new ≡ reuses.versions_by at.now map.old ready) }
        ensures reused { IfOk result (λ reused. reused ≡ record {
          awaited = reuses.awaited_of workers ready;
          is_new = is_new;
          patched = reuses.patched_in self.old at.now.block map.old ready;
        }) }
        ensures decisions { let patched = reuses.patched_in self.old at.now.block map.old ready in
            OnOk result (self.new ≡ reuses.decisions_by at.now.block patched map.old ready self.old) }
        ensures refused { OnErr result (self.new.blocks ≡ self.old.blocks) }
        ensures stays { MapStays map.old map.new }
    {
        push_new(alloc, orders, workers, is_new, at.epoch, &ready.template)?;
        let patched = self.patch(alloc, orders, workers, map, &mut ready, at)?;
        push_instances(alloc, orders, workers, at, args, map, &ready)?;
        let awaited = ready.awaited(alloc, workers)?;
        map.apply_effect(ready.template.effect.as_slice(), at.base);
        self.install(at.block, ready);
        Ok(Reused {
            awaited,
            is_new,
            patched,
        })
    }

    /// A block's template is installed, and this was its instance.
    fn install(&mut self, block: u8, ready: Ready)
        requires { block < length self.old.blocks }
        ensures { self.new ≡ record self.old {
          blocks = slice_set self.old.blocks block (installed ready);
          previous = block;
        } }
    {
        self.blocks[usize::from(block)] = Decided::Installed(ready);
        self.previous = block;
    }

    /// Gives the orders of the patch that an instance needs, if a precondition fails. The map takes in its copies, and
    /// the patch is kept.
    fn patch(
        &mut self,
        alloc: Global,
        orders: &mut Vec<(Worker, ToWorker)>,
        workers: u16,
        map: &mut VersionMap,
        ready: &mut Ready,
        at: &InstanceAt,
    ) -> Result<Patched, NoMemory>
        ensures orders { IfOk result (λ patched. orders.new.items ≡ orders.old.items
            ++ reuses.patch_orders workers at.now patched (patch_copies map.old ready.old.preconditions) map.old) }
        ensures map { OnOk result (map.new ≡ after_copies map.old (patch_copies map.old ready.old.preconditions)) }
        ensures patched { IfOk result (λ patched. patched
            ≡ reuses.patched_in self.old at.now.block map.old ready.old) }
        ensures kept { IfOk result (λ patched. self.new ≡ record self.old {
          patches = reuses.patches_after (reuses.patch_key_at self.old at.now.block)
              (patch_copies map.old ready.old.preconditions) self.old.patches patched;
        }) }
        ensures ready { ready.new ≡ ready.old }
        ensures refused { OnErr result (map.new ≡ map.old) }
        ensures blocks { self.new.blocks ≡ self.old.blocks }
    {
        if failing(&ready.template, map, ready.flags.as_mut_slice()) == 0 {
            return Ok(Patched::Not);
        }
        let patch = build_patch(alloc, &ready.template, map, ready.flags.as_slice())?;
        let copies = Vec::from_slice(alloc, patch.copies.as_slice())?;
        let patched = self.patch_by(at.block, patch)?;
        push_patch(alloc, orders, workers, at, patched, copies.as_slice(), map)?;
        take_copies(alloc, map, copies.as_slice());
        Ok(patched)
    }

    /// A patch before a block: the one that is kept, if it has the same copies, else a new one, which is kept.
    fn patch_by(&mut self, block: u8, patch: Patch) -> Result<Patched, NoMemory>
        ensures patched { IfOk result (λ patched. patched
            ≡ reuses.patch_found (reuses.patch_key_at self.old block) patch.copies self.old.patches) }
        ensures kept { IfOk result (λ patched. self.new ≡ record self.old {
          patches = reuses.patches_after (reuses.patch_key_at self.old block) patch.copies self.old.patches patched;
        }) }
        ensures blocks { self.new.blocks ≡ self.old.blocks }
    {
        match self.patches.find(self.previous, block, &patch) {
            Some(number) => Ok(Patched::Repeated(number)),
            None => Ok(Patched::Made(self.patches.keep(self.previous, block, patch)?)),
        }
    }
}

/// The template of a block, ready: the one that is installed, else what its record gives.
fn ready_of(
    alloc: Global,
    decided: Decided,
    place: &Placement,
    objects: u16,
    live: &[bool],
    block: u8,
) -> Result<Ready, NoMemory>
    requires { reuses.CanReuse objects live.now block decided }
    ensures { IfOk result (λ ready. ready ≡ reuses.template_by place.now objects live.now block decided) }
{
    match decided {
        Decided::Installed(ready) => Ok(ready),
        Decided::Recorded(recorded) => made_of(alloc, &recorded, place, objects, live),
        Decided::Open => {
            let recorded = ControllerTemplate {
                block,
                forms: Seq::new(alloc),
            };
            made_of(alloc, &recorded, place, objects, live)
        }
    }
}

/// The template that a record gives, ready.
fn made_of(
    alloc: Global,
    recorded: &ControllerTemplate,
    place: &Placement,
    objects: u16,
    live: &[bool],
) -> Result<Ready, NoMemory>
    requires { MayBuild objects live.now recorded.now.forms }
    ensures { IfOk result (λ ready. ready ≡ built place.now objects live.now recorded.now) }
{
    Ready::new(alloc, build_halves(alloc, recorded, place, objects, live)?)
}

/// The map takes in the copies of a patch.
fn take_copies(alloc: Global, map: &mut VersionMap, copies: &[PatchCopy])
    ensures { map.new ≡ after_copies map.old copies.now }
{
    for copy in copies {
        let command = Command {
            id: 0,
            kind: Kind::Receive {
                slot: Slot(copy.object.0),
                version: map.latest(copy.object),
            },
            before: Short::new(alloc),
        };
        map.apply_command(copy.to, &command);
    }
}
