ghost use Rattle.std.specs.Prelude.{◌≡◌, ◌≤◌, ◌<◌, [], ◌∷◌, ◌++◌, List, length, All, IfOk};
ghost use Rattle.nim_base.specs.Value.{Grid};
ghost use Rattle.nim_base.specs.Functions.{read_values, sum_of};
ghost use Rattle.nim_funcs.specs.Sums.{IsSumOf};

use crate::cellwise::addc;
use crate::pairwise::add;
use nim_base::{NoMemory, Value};
use std::alloc::Global;

/// The sum of one value.
fn sum_of_one(alloc: Global, value: &Value) -> Result<Value, NoMemory>
    ensures { IfOk result (λ sums. IsSumOf (value.now ∷ []) sums) }
{
    let sums = addc(alloc, value, 0)?;
    // The clauses of `cells` say that each row has the width.
    let _cells = sums.cells();
    Ok(sums)
}

/// The sum of one value more.
fn sum_with(alloc: Global, sums: &Value, value: &Value) -> Result<Value, NoMemory>
    ensures { (reads : List Grid) → IsSumOf reads sums.now
        → IfOk result (λ more. IsSumOf (reads ++ value.now ∷ []) more) }
{
    let more = add(alloc, sums, value)?;
    // As above, of what is added and of what comes of it.
    let _added = value.cells();
    let _cells = more.cells();
    Ok(more)
}

/// The sums of the cells of the same place; rows and width are the greatest of all reads.
pub fn sum(alloc: Global, values: &[Value], reads: &[usize]) -> Result<Value, NoMemory>
    requires some { 1 ≤ length reads.now }
    requires inside { All (λ index. index < length values.now) reads.now }
    ensures { IfOk result (λ sums. sums ≡ sum_of (read_values values.now reads.now)) }
{
    let mut sums = sum_of_one(alloc, &values[reads[0]])?;
    for at in 1..reads.len() {
        sums = sum_with(alloc, &sums, &values[reads[at]])?;
    }
    Ok(sums)
}
