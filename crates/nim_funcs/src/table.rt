ghost use Rattle.std.specs.Prelude.{◌≡◌, ◌≤◌, ◌<◌, [], ◌∷◌, length, All, IfOk};
ghost use Rattle.nim_base.specs.Value.{fitted};
ghost use Rattle.nim_base.specs.Apply.{HasCounts, apply_of};
ghost use Rattle.nim_base.specs.Functions.{read_values};

use crate::cellwise::{addc, mulc};
use crate::group::{group_by, merge};
use crate::keep::keep_by;
use crate::pairwise::{add, max, sub};
use crate::split::split_by;
use crate::stencil::stencil_by;
use crate::sum::sum;
use crate::total::{count, total};
use nim_base::{Copied, Func, NoMemory, Shape, Value, fit};
use std::alloc::Global;

/// One value alone.
fn alone(alloc: Global, value: Value) -> Result<Vec<Value>, NoMemory>
    ensures { IfOk result (λ written. written.items ≡ value ∷ []) }
{
    let mut written = Vec::with_capacity(alloc, 1)?;
    written.push(value)?;
    Ok(written)
}

/// The one result of a task, fitted to its shape.
fn one(alloc: Global, value: Value, shape: Shape) -> Result<Vec<Value>, NoMemory>
    requires { 1 ≤ shape.width }
    ensures { IfOk result (λ written. written.items ≡ fitted value shape ∷ []) }
{
    alone(alloc, value.into_shape(shape)?)
}

/// A value copied into a shape, in one piece where the shape is as wide and cuts no row.
fn copied(alloc: Global, value: &Value, shape: Shape) -> Result<Value, NoMemory>
    requires { 1 ≤ shape.width }
    ensures { IfOk result (λ copy. copy ≡ fitted value.now shape) }
{
    if value.width() == shape.width && value.rows() <= shape.rows {
        value.copy()?.into_shape(shape)
    } else {
        fit(alloc, value, shape)
    }
}

/// The two results of a task, each fitted to its shape.
fn two(
    alloc: Global,
    values: (Value, Value),
    first: Shape,
    second: Shape,
) -> Result<Vec<Value>, NoMemory>
    requires first { 1 ≤ first.width }
    requires second { 1 ≤ second.width }
    ensures { IfOk result (λ written. written.items ≡ fitted values.0 first ∷ (fitted values.1 second ∷ [])) }
{
    let (one, other) = values;
    let mut written = Vec::with_capacity(alloc, 2)?;
    written.push(one.into_shape(first)?)?;
    written.push(other.into_shape(second)?)?;
    Ok(written)
}

/// What a task writes, one value a shape: the function's results, each fitted to its shape. The function
/// reads `values[reads[k]]`. What each function gives stands in `specs/Functions.antt` of the crate
/// `nim_base`.
pub fn apply(
    alloc: Global,
    func: Func,
    params: &[i64],
    values: &[Value],
    reads: &[usize],
    shapes: &[Shape],
) -> Result<Vec<Value>, NoMemory>
    requires counts { HasCounts func params.now reads.now shapes.now }
    requires reads { All (λ index. index < length values.now) reads.now }
    requires wide { All (λ shape. 1 ≤ shape.width) shapes.now }
    ensures { IfOk result (λ written. written.items
        ≡ apply_of func params.now (read_values values.now reads.now) shapes.now) }
{
    match func {
        Func::Set => one(
            alloc,
            Value::filled(alloc, shapes[0], params[0])?,
            shapes[0],
        ),
        Func::Copy => alone(alloc, copied(alloc, &values[reads[0]], shapes[0])?),
        Func::Addc => one(alloc, addc(alloc, &values[reads[0]], params[0])?, shapes[0]),
        Func::Mulc => one(alloc, mulc(alloc, &values[reads[0]], params[0])?, shapes[0]),
        Func::Add => one(
            alloc,
            add(alloc, &values[reads[0]], &values[reads[1]])?,
            shapes[0],
        ),
        Func::Sub => one(
            alloc,
            sub(alloc, &values[reads[0]], &values[reads[1]])?,
            shapes[0],
        ),
        Func::Max => one(
            alloc,
            max(alloc, &values[reads[0]], &values[reads[1]])?,
            shapes[0],
        ),
        Func::Sum => one(alloc, sum(alloc, values, reads)?, shapes[0]),
        Func::Total => one(alloc, total(alloc, values, reads)?, shapes[0]),
        Func::Count => one(alloc, count(alloc, values, reads)?, shapes[0]),
        Func::Stencil => {
            let (above, middle, below) = (&values[reads[0]], &values[reads[1]], &values[reads[2]]);
            one(
                alloc,
                stencil_by(alloc, params, above, middle, below)?,
                shapes[0],
            )
        }
        Func::Keep => one(alloc, keep_by(alloc, &values[reads[0]], params)?, shapes[0]),
        Func::Split => two(
            alloc,
            split_by(alloc, &values[reads[0]], params)?,
            shapes[0],
            shapes[1],
        ),
        Func::Group => one(
            alloc,
            group_by(alloc, &values[reads[0]], params)?,
            shapes[0],
        ),
        Func::Merge => one(alloc, merge(alloc, values, reads)?, shapes[0]),
    }
}
