ghost use Rattle.std.specs.Prelude.{◌≡◌, ◌+◌, ◌*◌, ◌<◌, ◌≤◌, true, [], ◌∷◌, IfOk};
ghost use Rattle.std.specs.List.{fold};
ghost use Rattle.nim_place.specs.Stands.{MapStands, StandsOn, is_aside};
ghost use Rattle.nim_place.specs.Versions as spec;

use nim_base::{NoMemory, Object, Position, Slot, Version, Worker};
use nim_command::{Command, Kind};
use nim_plan::version_after;
use std::alloc::Global;
use std::marker::Model;

/// Which version of each object the main slot of each worker holds, and the latest version of each. Contracts see
/// `Versions` of `specs/Versions.antt`; what is no main slot of its workers and objects isn't in it.
#[derive(Debug, Drop)]
pub struct VersionMap {
    workers: u16,
    objects: u16,
    held: Vec<Option<Version>>,
    latest: Vec<Version>,
}

impl Model for VersionMap {
    ghost use Rattle.std.specs.Prelude.{◌≡◌, ◌*◌, length};
    ghost use Rattle.nim_place.specs.Versions.{Versions};

    ghost Value = { Versions };

    ghost view = { λ m. record
        { workers = m.workers; objects = m.objects; held = m.held.items; latest = m.latest.items } };

    ghost invariant = { λ m. (length m.held.items ≡ m.objects * m.workers) × (length m.latest.items ≡ m.objects) };
}

impl VersionMap {
    /// Nothing is held, and each latest version is 0.
    pub fn new(alloc: Global, workers: u16, objects: u16) -> Result<VersionMap, NoMemory>
        requires { objects ≤ 512 }
        ensures value { IfOk result (λ map. map ≡ spec.no_versions workers objects) }
        ensures stands { IfOk result (MapStands []) }
    {
        let slots = usize::from(objects) * usize::from(workers);
        Ok(VersionMap {
            workers,
            objects,
            held: vec![in alloc; None; slots]?,
            latest: vec![in alloc; 0; usize::from(objects)]?,
        })
    }

    /// How many workers it has.
    pub fn workers(&self) -> u16
        ensures { result ≡ self.now.workers }
    {
        self.workers
    }

    /// How many objects it has.
    pub fn objects(&self) -> u16
        ensures { result ≡ self.now.objects }
    {
        self.objects
    }

    /// The greatest version that a command or an effect put into a main slot of the object, 0 before any.
    pub fn latest(&self, object: Object) -> Version
        ensures { result ≡ spec.latest_of self.now object }
    {
        match self.latest.get(usize::from(object.0)) {
            Some(version) => *version,
            None => 0,
        }
    }

    /// The version that a worker's main slot holds; nothing where the slot is empty.
    pub fn held(&self, worker: Worker, slot: Slot) -> Option<Version>
        ensures { result ≡ spec.held_at self.now worker slot }
    {
        if self.is_kept(worker, slot) {
            self.held[self.place_of(worker, slot)]
        } else {
            None
        }
    }

    /// The lowest worker whose main slot holds the latest version.
    pub fn holder(&self, object: Object) -> Option<Worker>
        ensures { result ≡ spec.holder self.now object }
    {
        for number in 0..self.workers {
            let worker = Worker(number);
            if self.is_current(object, worker) {
                return Some(worker);
            }
        }
        None
    }

    /// Whether a worker's main slot holds the latest version of an object.
    pub fn is_current(&self, object: Object, worker: Worker) -> bool
        ensures { result ≡ spec.is_current self.now object worker }
    {
        match self.held(worker, Slot(object.0)) {
            Some(version) => version == self.latest(object),
            None => false,
        }
    }

    /// Takes in what a worker's command leaves in main slots. A Copy leaves none, since it goes to a scratch slot.
    pub fn apply_command(&mut self, worker: Worker, command: &Command)
        ensures value { self.new ≡ spec.after_kind worker self.old command.now.kind }
        ensures stands { worker.0 < self.old.workers → is_aside self.old command.now.kind ≡ true
            → StandsOn self.old self.new ((worker, command.now) ∷ []) }
    {
        self.put_by(worker, &command.kind);
    }

    /// Takes in what an instance of a block leaves in main slots: which offset each one has then, counted from the
    /// position of the block's task 0. Offset 0 is the version that the block began with, the latest one so far.
    pub fn apply_effect(&mut self, effect: &[(Worker, Slot, u16)], base: Position)
        ensures { self.new ≡ spec.after_effect base self.old effect.now }
    {
        for item in effect {
            self.put_kept(item);
        }
        for item in effect {
            self.put_written(item, base);
        }
    }

    /// What a command of this kind leaves.
    fn put_by(&mut self, worker: Worker, kind: &Kind)
        ensures { self.new ≡ spec.after_kind worker self.old kind.now }
    {
        match kind {
            Kind::Create { slot, .. } => self.put(worker, *slot, 0),
            Kind::Load { slot, version, .. } => self.put(worker, *slot, *version),
            Kind::Receive { slot, version } => self.put(worker, *slot, *version),
            Kind::Run {
                position,
                writes,
                ..
            } => self.put_all(worker, writes.as_slice(), version_after(*position)),
            Kind::Send { .. } | Kind::Copy { .. } | Kind::Fetch { .. } => {}
        }
    }

    /// Where an item of an effect says that a slot has what the block began with.
    fn put_kept(&mut self, item: &(Worker, Slot, u16))
        ensures { self.new ≡ spec.with_kept self.old item.now }
    {
        let (worker, slot, offset) = *item;
        if offset == 0 {
            let version = self.latest(Object(slot.0));
            self.put(worker, slot, version);
        }
    }

    /// Where an item of an effect says that a slot has what a task of the block writes.
    fn put_written(&mut self, item: &(Worker, Slot, u16), base: Position)
        ensures { self.new ≡ spec.with_written base self.old item.now }
    {
        let (worker, slot, offset) = *item;
        if offset != 0 {
            self.put(worker, slot, base.saturating_add(u64::from(offset)));
        }
    }

    /// A version was put into slots.
    fn put_all(&mut self, worker: Worker, slots: &[Slot], version: Version)
        ensures { self.new ≡ fold (spec.with_version worker version) self.old slots.now }
    {
        for slot in slots {
            self.put(worker, *slot, version);
        }
    }

    /// A version was put into a slot.
    fn put(&mut self, worker: Worker, slot: Slot, version: Version)
        ensures { self.new ≡ spec.with_version worker version self.old slot }
    {
        if self.is_kept(worker, slot) {
            let place = self.place_of(worker, slot);
            let object = usize::from(slot.0);
            self.held[place] = Some(version);
            self.latest[object] = self.latest[object].max(version);
        }
    }

    /// Whether it has this worker and this slot, as the main slot of an object.
    fn is_kept(&self, worker: Worker, slot: Slot) -> bool
        ensures { result ≡ spec.is_kept self.now worker slot }
    {
        worker.0 < self.workers && slot.0 < self.objects
    }

    /// Where it has a worker's main slot.
    fn place_of(&self, worker: Worker, slot: Slot) -> usize
        ensures { result ≡ spec.place_of self.now worker slot }
    {
        usize::from(worker.0) * usize::from(self.objects) + usize::from(slot.0)
    }
}
