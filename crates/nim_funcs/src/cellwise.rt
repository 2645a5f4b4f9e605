ghost use Rattle.std.specs.Prelude.{◌≡◌, map, IfOk};
ghost use Rattle.std.specs.Int.{int_wrapping_add, int_wrapping_mul, w64};
ghost use Rattle.nim_base.specs.Functions.{addc_of, mulc_of};

use nim_base::{NoMemory, Value};
use std::alloc::Global;

fn cells_plus(alloc: Global, cells: &[i64], number: i64) -> Result<Vec<i64>, NoMemory>
    ensures { IfOk result (λ sums. sums.items ≡ map (λ cell. int_wrapping_add w64 cell number) cells.now) }
{
    let sums = cells
        .iter()
        .map(|cell| cell.wrapping_add(number))
        .collect(alloc)?;
    Ok(sums)
}

fn cells_times(alloc: Global, cells: &[i64], number: i64) -> Result<Vec<i64>, NoMemory>
    ensures { IfOk result (λ products. products.items
        ≡ map (λ cell. int_wrapping_mul w64 cell number) cells.now) }
{
    let products = cells
        .iter()
        .map(|cell| cell.wrapping_mul(number))
        .collect(alloc)?;
    Ok(products)
}

/// Each cell plus the number; a sum wraps.
pub fn addc(alloc: Global, value: &Value, number: i64) -> Result<Value, NoMemory>
    ensures { IfOk result (λ sums. sums ≡ addc_of number value.now) }
{
    let sums = cells_plus(alloc, value.cells(), number)?;
    Ok(Value::from_cells(value.width(), value.rows(), sums))
}

/// Each cell times the number; a product wraps.
pub fn mulc(alloc: Global, value: &Value, number: i64) -> Result<Value, NoMemory>
    ensures { IfOk result (λ products. products ≡ mulc_of number value.now) }
{
    let products = cells_times(alloc, value.cells(), number)?;
    Ok(Value::from_cells(value.width(), value.rows(), products))
}
