ghost use Rattle.std.specs.Prelude.{◌≡◌, ◌≤◌, length, IsTrue};
ghost use Rattle.nim_job.specs.Tasks.{takes_of};

use nim_base::{Func, Object, Param};
use nim_check::{load, read_driver, read_job};
use nim_job::{Init, Job, block_forms, block_tasks, is_checked, is_whole, shapes};
use std::test::Fail;

const PAIR: &[u8] =
    b"nimbus 1\nvar a parts 2 width 1 rows 1 fill 3\nvar z parts 2 width 1 rows 1 fill 0\nblock b()\naddc a[i] -> z[i] with 4 each i\nend\ndo b()\noutput z\n";

const LOADS: &[u8] = b"nimbus 1\nvar t parts 1 width 2 rows 3 load\n";

/// The object that each task of the block of `PAIR` reads, and the one that it writes.
const TASKS: &[(u16, u16)] = &[(0, 2), (1, 3)];

#[test]
fn a_block_has_a_task_for_each_part(rt: HostRuntime) -> Result<(), Fail> {
    let Ok(job) = read_driver(rt.alloc(), PAIR) else {
        return Err(Fail::from("it isn't read"));
    };
    if !is_whole(&job) || !takes_none(&job) {
        return Err(Fail::from("there is no such block"));
    }
    assert_eq!(rt; shapes(rt.alloc(), &job)?.len(), 4);
    let forms = block_forms(rt.alloc(), &job, 0)?;
    let tasks = block_tasks(rt.alloc(), &job, 0, &[])?;
    assert_eq!(rt; (forms.len(), tasks.len()), (2, 2));
    for (form, (read, written)) in forms.iter().zip(TASKS) {
        assert_eq!(rt; form.func, Func::Addc);
        assert_eq!(rt; form.params.as_slice(), [Param::Const(4)].as_slice());
        assert_eq!(rt; form.reads.as_slice(), [Object(*read)].as_slice());
        assert_eq!(rt; form.writes.as_slice(), [Object(*written)].as_slice());
    }
    for task in &tasks {
        assert_eq!(rt; task.params.as_slice(), [4].as_slice());
    }
    Ok(())
}

/// Whether there is a first block, and it takes no argument.
fn takes_none(job: &Job) -> bool
    ensures { IsTrue result → (1 ≤ length job.now.blocks) × (takes_of job.now 0 ≡ 0) }
{
    match job.blocks.as_slice().first() {
        Some(block) => block.args == 0,
        None => false,
    }
}

/// The number of rows of the first part of the first variable, and its first cell.
fn first(job: &Job) -> (u32, i64) {
    for var in job.vars.as_slice() {
        if let Init::Loaded(values) = &var.init {
            for value in values.as_slice() {
                return (value.rows(), value.cell(0, 0));
            }
        }
    }
    (0, 0)
}

#[test]
fn a_second_file_takes_the_place_of_the_first(rt: HostRuntime) -> Result<(), Fail> {
    let Ok(mut job) = read_job(rt.alloc(), LOADS, b"t 0 1 2\n5 -6\n") else {
        return Err(Fail::from("it isn't read"));
    };
    assert_eq!(rt; first(&job), (1, 5));
    if !is_checked(&job) || load(rt.alloc(), &mut job, b"t 0 2 2\n7 8\n9 1\n").is_err() {
        return Err(Fail::from("it isn't loaded"));
    }
    assert_eq!(rt; first(&job), (2, 7));
    assert!(rt; is_whole(&job));
    Ok(())
}
