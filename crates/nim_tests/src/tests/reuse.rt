use nim_base::{Name, Worker};
use nim_course::{EditLine, Rollback, Summary};
use nim_edit::EditRefused;
use nim_place::{Placement, VersionMap};
use nim_reuse::{DecisionMap, InstanceAt, Patched};
use nim_template::Recorder;
use std::test::Fail;

#[test]
fn a_block_without_tasks_costs_nothing(rt: HostRuntime) -> Result<(), Fail> {
    let mut map = VersionMap::new(rt.alloc(), 2, 2)?;
    let mut decisions = DecisionMap::new(rt.alloc(), 1)?;
    assert!(rt; !decisions.is_recorded(0));
    decisions.record(Recorder::new(rt.alloc(), 0).finish());
    assert!(rt; decisions.is_recorded(0));
    let at = InstanceAt {
        epoch: 0,
        instance: 1,
        block: 0,
        base: 0,
    };
    let (place, live) = (Placement::Cyclic, [true, true]);
    let mut orders = Vec::new(rt.alloc());
    let reused = decisions.reuse(rt.alloc(), &mut orders, &mut map, &place, &live, &at, &[])?;
    assert_eq!(rt; orders.len(), 0);
    assert_eq!(rt; reused.awaited.len(), 0);
    assert!(rt; reused.is_new);
    assert_eq!(rt; reused.patched, Patched::Not);
    Ok(())
}

#[test]
fn a_summary_with_edits_and_rollbacks(rt: HostRuntime) -> Result<(), Fail> {
    let mut summary = Summary::new(rt.alloc(), 2)?;
    summary.taken = 1;
    summary.refused = 1;
    summary.edits.push(EditLine {
        block: Name::from_str(rt.alloc(), "heat")?,
        task: 3,
        to: 1,
        refused: None,
    })?;
    summary.edits.push(EditLine {
        block: Name::from_str(rt.alloc(), "x")?,
        task: 0,
        to: 7,
        refused: Some(EditRefused::NotLive),
    })?;
    summary.rollbacks.push(Rollback {
        worker: Worker(1),
        position: 40,
    })?;
    let text = summary.text(rt.alloc())?;
    let wanted =
        "instances 0 single 0 installed 0 cached 0\npatches made 0 repeated 0\nedits taken 1 refused 1\n\
        edit heat 3 1 taken\nedit x 0 7 refused not-live\nrollbacks 1\nrollback 0 worker 1 position 40\ncontrol 0\n\
        worker 0 live tasks 0 orders 0\nworker 1 live tasks 0 orders 0\n";
    assert!(rt; text.as_slice() == wanted.as_bytes());
    Ok(())
}
