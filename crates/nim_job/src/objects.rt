ghost use Rattle.std.specs.Prelude.{◌≡◌, ◌+◌, ◌≤◌, ◌++◌, length, replicate, All, IfOk, IsTrue, OnOk};
ghost use Rattle.nim_job.specs.Objects.{objects_of, shapes_of};
ghost use Rattle.nim_job.specs.Whole.{is_whole};

use crate::Job;
use nim_base::{NoMemory, Shape};
use std::alloc::Global;

/// The shapes of all objects, in order of their numbers. Their meaning is `shapes_of` of `specs/Objects.antt`.
pub fn shapes(alloc: Global, job: &Job) -> Result<Vec<Shape>, NoMemory>
    requires whole { IsTrue (is_whole job.now) }
    ensures shapes { IfOk result (λ shapes. shapes.items ≡ shapes_of job.now.vars) }
    ensures fits { IfOk result (λ shapes. (length shapes.items ≡ objects_of job.now.vars)
        × All (λ (s : Shape). 1 ≤ s.width) shapes.items) }
{
    let mut shapes = Vec::new(alloc);
    for var in job.vars.as_slice() {
        push_times(&mut shapes, var.parts, var.shape)?;
    }
    Ok(shapes)
}

/// Appends the shape so many times.
fn push_times(shapes: &mut Vec<Shape>, times: u32, shape: Shape) -> Result<(), NoMemory>
    ensures { OnOk result (shapes.new.items ≡ shapes.old.items ++ replicate times shape) }
{
    for _ in 0..times {
        shapes.push(shape)?;
    }
    Ok(())
}
