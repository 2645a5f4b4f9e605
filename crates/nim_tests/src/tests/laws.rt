use nim_base::{NoMemory, Seq, Value};
use nim_check::{printed_is_loaded, read_driver};
use nim_course::{controllers_lead, controllers_put, prints_what_is_told};
use nim_edit::{built_is_in_form, moved_stays_good};
use nim_funcs::{
    add_is_sum, group_gathers_all_rows, keep_counts_all_rows, merge_joins_groups, order_is_free,
    split_keeps_all_rows,
};
use nim_history::{commands_in_turn, histories_are_true, history_goes_on};
use nim_job::{Job, division_is_total, is_checked, is_whole, machine_follows, versions_are_read};
use nim_lex::tokens;
use nim_lockstep::{clusters_stay_in_step, events_are_few, events_go_on};
use nim_order::{
    any_order, any_step, before_sets_cover, front_stays, held_at_ends, longer_list_stands,
    never_stuck, orders_cover, versions_are_local,
};
use nim_parse::parse;
use nim_place::{Placement, map_starts, orders_extend};
use nim_plan::legal_by_steps;
use nim_printed::{job_is_read, job_stands, tree_is_read, words_are_read};
use nim_reuse::{decisions_stand, instances_go_on, later_instances_are_short};
use nim_template::{Recorder, build_halves, maps_stay_before};
use nim_worker::lent_batches_stand;
use sqlite_items::Items;
use std::alloc::Global;
use std::test::Fail;

const DRIVER: &[u8] =
    b"nimbus 1\nvar a parts 2 width 1 rows 1 load\nblock b(k)\naddc a[i-1] -> a[i] with k each i\nend\nlet n = -3\nif n < 0\ndo b(n)\nelse\noutput a\nend\n";

const PLAIN: &[u8] =
    b"nimbus 1\nvar a parts 2 width 1 rows 1 fill 3\nblock b()\naddc a[i] -> a[i] with 4 each i\nend\ndo b()\noutput a\n";

#[test]
fn laws_of_functions(rt: HostRuntime) -> Result<(), Fail> {
    let first = Value::from_cells(2, 2, Vec::from_slice(rt.alloc(), &[1, 10, 2, 20])?);
    let second = Value::from_cells(1, 1, Vec::from_slice(rt.alloc(), &[-3])?);
    split_keeps_all_rows(&first, 0, 2);
    keep_counts_all_rows(&first, 0, 2, 9);
    add_is_sum(&first, &second);
    group_gathers_all_rows(&first, 0, 1);
    let reads = [first, second];
    order_is_free(&reads, &reads);
    merge_joins_groups(&reads[0], &reads, 1, 0);
    Ok(())
}

#[test]
fn laws_of_jobs(rt: HostRuntime) -> Result<(), Fail> {
    let Ok(mut job) = read_driver(rt.alloc(), PLAIN) else {
        return Err(Fail::from("it isn't read"));
    };
    versions_are_read(&job);
    assert!(rt; is_checked(&job));
    assert!(rt; is_whole(&job));
    machine_follows(&job);
    division_is_total();
    job.steps = 0;
    assert!(rt; !is_checked(&job));
    assert!(rt; !is_whole(&job));
    Ok(())
}

#[test]
fn laws_of_orders(_rt: HostRuntime) -> Result<(), Fail> {
    legal_by_steps();
    before_sets_cover();
    orders_cover();
    any_order::<u64>();
    any_step::<u64>();
    held_at_ends::<u64>();
    longer_list_stands::<u64>();
    front_stays();
    never_stuck();
    versions_are_local();
    orders_extend();
    map_starts();
    maps_stay_before();
    Ok(())
}

#[test]
fn laws_of_moves(rt: HostRuntime) -> Result<(), Fail> {
    let recorded = Recorder::new(rt.alloc(), 7).finish();
    let (place, live) = (Placement::Cyclic, [true, true]);
    let built = build_halves(rt.alloc(), &recorded, &place, 2, &live)?;
    built_is_in_form(&built, &recorded, &place, 2, &live);
    moved_stays_good(&built, &recorded, &place, 2, &live);
    Ok(())
}

#[test]
fn laws_of_reuse(_rt: HostRuntime) -> Result<(), Fail> {
    instances_go_on();
    decisions_stand();
    later_instances_are_short();
    Ok(())
}

#[test]
fn laws_of_controllers(_rt: HostRuntime) -> Result<(), Fail> {
    controllers_lead();
    controllers_put();
    prints_what_is_told();
    Ok(())
}

#[test]
fn laws_of_histories(_rt: HostRuntime) -> Result<(), Fail> {
    histories_are_true();
    history_goes_on();
    commands_in_turn();
    lent_batches_stand();
    Ok(())
}

#[test]
fn laws_of_clusters(_rt: HostRuntime) -> Result<(), Fail> {
    clusters_stay_in_step();
    events_go_on();
    events_are_few();
    Ok(())
}

#[test]
fn laws_of_printers(rt: HostRuntime) -> Result<(), Fail> {
    words_are_read();
    let Ok(all) = tokens(rt.alloc(), DRIVER) else {
        return Err(Fail::from("it has no tokens"));
    };
    let Ok(tree) = parse(rt.alloc(), DRIVER, all.as_slice()) else {
        return Err(Fail::from("it has no tree"));
    };
    tree_is_read(&tree);
    let Ok(job) = read_driver(rt.alloc(), DRIVER) else {
        return Err(Fail::from("it isn't read"));
    };
    job_stands(&job);
    job_is_read(&job);
    Ok(())
}

/// A job without variables.
fn empty_job(alloc: Global) -> Job {
    Job {
        steps: 1,
        vars: Seq::new(alloc),
        blocks: Seq::new(alloc),
        body: Items::new(alloc),
    }
}

#[test]
fn the_law_of_printed_data(rt: HostRuntime) -> Result<(), NoMemory> {
    let job = empty_job(rt.alloc());
    if is_whole(&job) && job.vars.len() == 0 {
        printed_is_loaded(&job);
    }
    Ok(())
}
