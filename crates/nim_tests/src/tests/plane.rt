ghost use Rattle.std.specs.Prelude.{◌<◌, slice_get, IsSomeAnd, IsTrue};

use nim_base::{
    Func, NoMemory, Object, Param, Seq, Shape, Short, Slot, Task, TaskForm, Value, Worker,
};
use nim_command::{Command, Kind, WorkerTemplate};
use nim_message::Data;
use nim_patch::{PatchCache, build_patch, failing};
use nim_place::{Placement, VersionMap, home, schedule_task};
use nim_queue::BeforeQueue;
use nim_store::{Held, Inbox, Key, Store};
use nim_template::{Recorder, build_halves};
use std::alloc::Global;
use std::test::Fail;

const ONE: Shape = Shape { width: 1, rows: 1 };

/// An object of ten, how it is placed, and its home.
const HOMES: [(u16, Placement, u16); 6] = [
    (5, Placement::Cyclic, 1),
    (6, Placement::Cyclic, 3),
    (9, Placement::Block, 3),
    (3, Placement::Block, 1),
    (5, Placement::Block, 3),
    (0, Placement::Mixed(0), 3),
];

#[test]
fn homes_are_live(rt: HostRuntime) -> Result<(), Fail> {
    let live = [true, true, false, true]; // the third worker is lost
    for (object, place, worker) in &HOMES {
        if *object < 10 {
            assert_eq!(rt; home(place, Object(*object), 10, &live), Worker(*worker));
        }
    }
    Ok(())
}

fn filled(alloc: Global, id: u32, slot: u16) -> Command {
    Command {
        id,
        kind: Kind::Create {
            slot: Slot(slot),
            iota: false,
            number: 3,
        },
        before: Short::new(alloc),
    }
}

/// A task that adds to object 1 and writes object 0.
fn task(alloc: Global) -> Result<Task, NoMemory> {
    let mut task = Task {
        func: Func::Addc,
        params: Seq::new(alloc),
        reads: Seq::new(alloc),
        writes: Seq::new(alloc),
    };
    match fill(&mut task) {
        Ok(()) => Ok(task),
        Err(refused) => {
            drop(task);
            Err(refused)
        }
    }
}

fn fill(task: &mut Task) -> Result<(), NoMemory> {
    task.params.push(4)?;
    task.reads.push(Object(1))?;
    task.writes.push(Object(0))
}

/// Whether a task writes one of two objects first.
fn writes_one_of_two(task: &Task) -> bool
    ensures { IsTrue result → IsSomeAnd (slice_get task.now.writes 0) (λ object. object.0 < 2) }
{
    match task.writes.as_slice().first() {
        Some(object) => object.0 < 2,
        None => false,
    }
}

#[test]
fn a_map_holds_what_a_task_writes(rt: HostRuntime) -> Result<(), Fail> {
    let task = task(rt.alloc())?;
    let mut map = VersionMap::new(rt.alloc(), 2, 2)?;
    if writes_one_of_two(&task) {
        let place = Placement::Cyclic;
        let given = schedule_task(rt.alloc(), &mut map, &task, 0, 0, &place, &[true, true])?;
        assert_eq!(rt; given.len(), 1);
    }
    assert_eq!(rt; map.holder(Object(0)), Some(Worker(0)));
    assert_eq!(rt; map.latest(Object(0)), 1);
    map.apply_command(Worker(1), &filled(rt.alloc(), 0, 1));
    assert_eq!(rt; map.holder(Object(1)), Some(Worker(1)));
    Ok(())
}

#[test]
fn a_block_is_recorded(rt: HostRuntime) -> Result<(), Fail> {
    let form = TaskForm {
        func: Func::Addc,
        params: Seq::from_vec(Vec::from_slice(rt.alloc(), &[Param::Arg(0)])?),
        reads: Seq::from_vec(Vec::from_slice(rt.alloc(), &[Object(1)])?),
        writes: Seq::from_vec(Vec::from_slice(rt.alloc(), &[Object(0)])?),
    };
    let mut recorder = Recorder::new(rt.alloc(), 7);
    recorder.push_form(&form)?;
    assert_eq!(rt; recorder.finish().forms.len(), 1);
    Ok(())
}

#[test]
fn a_block_without_tasks_has_empty_halves(rt: HostRuntime) -> Result<(), Fail> {
    let block = Recorder::new(rt.alloc(), 7).finish();
    let built = build_halves(rt.alloc(), &block, &Placement::Cyclic, 2, &[true, true])?;
    assert_eq!(rt; built.block, 7);
    assert_eq!(rt; built.halves.len(), 2);
    assert_eq!(rt; built.preconditions.len(), 0);
    Ok(())
}

/// A template that has to find object 0 at two workers.
fn template(alloc: Global) -> Result<WorkerTemplate, NoMemory> {
    let places = [(Worker(0), Object(0)), (Worker(1), Object(0))];
    let preconditions = Seq::from_vec(Vec::from_slice(alloc, &places)?);
    Ok(WorkerTemplate {
        block: 0,
        forms: Seq::new(alloc),
        halves: Seq::new(alloc),
        built: Seq::new(alloc),
        preconditions,
        effect: Seq::new(alloc),
        homes: Seq::new(alloc),
        owners: Seq::new(alloc),
        unsent: Seq::new(alloc),
    })
}

#[test]
fn a_patch_is_kept_and_found(rt: HostRuntime) -> Result<(), Fail> {
    let template = template(rt.alloc())?;
    let mut map = VersionMap::new(rt.alloc(), 2, 1)?;
    map.apply_command(Worker(0), &filled(rt.alloc(), 0, 0));
    let mut flags = vec![in rt.alloc(); false; template.preconditions.len()]?;
    assert_eq!(rt; failing(&template, &map, &mut flags), 1);
    let patch = build_patch(rt.alloc(), &template, &map, &flags)?;
    let again = build_patch(rt.alloc(), &template, &map, &flags)?;
    assert_eq!(rt; patch.copies.len(), 1);
    let mut cache = PatchCache::new(rt.alloc())?;
    assert_eq!(rt; cache.find(32, 0, &again), None);
    assert_eq!(rt; cache.keep(32, 0, patch)?, 0);
    assert_eq!(rt; cache.find(32, 0, &again), Some(0));
    assert_eq!(rt; cache.find(0, 0, &again), None);
    assert_eq!(rt; cache.keep(0, 0, again)?, 1);
    Ok(())
}

#[test]
fn commands_wait_for_those_before(rt: HostRuntime) -> Result<(), Fail> {
    let mut queue = BeforeQueue::new(rt.alloc());
    for _ in 0..2u32 {
        let mut group = Vec::new(rt.alloc());
        group.push(filled(rt.alloc(), 0, 5))?;
        queue.admit(group)?;
    }
    assert_eq!(rt; queue.ready(None), Some(0));
    assert_eq!(rt; queue.ready(Some(0)), None);
    assert_eq!(rt; queue.group(1), Some(1));
    assert!(rt; queue.complete(0).is_some());
    assert_eq!(rt; queue.ready(None), Some(1));
    assert!(rt; queue.command(0).is_none());
    Ok(())
}

#[test]
fn a_store_and_an_inbox_keep_what_comes(rt: HostRuntime) -> Result<(), Fail> {
    let mut store = Store::new(rt.alloc());
    store.reset(Vec::from_slice(rt.alloc(), &[ONE])?);
    let value = Value::filled(rt.alloc(), ONE, 7)?;
    store.put(
        Slot(513),
        Held {
            object: Object(1),
            version: 4,
            value,
        },
    )?;
    assert!(rt; store.held(Slot(1)).is_none());
    assert!(rt; store.take(Slot(513)).is_some());
    assert!(rt; store.take(Slot(513)).is_none());
    let frame = Data {
        epoch: 1,
        instance: 2,
        entry: 65,
        object: Object(3),
        version: 4,
        value: Value::filled(rt.alloc(), ONE, 9)?,
    };
    let key = Key::of(&frame);
    let mut inbox = Inbox::new(rt.alloc());
    inbox.keep(frame)?;
    inbox.forget_before(1);
    assert!(rt; inbox.has(&key));
    assert!(rt; inbox.take(&key).is_some());
    assert!(rt; !inbox.has(&key));
    Ok(())
}
