use crate::shapes::shapes;
use crate::values::{push_value, value};
use nim_base::{Func, Shape, Value};
use nim_funcs::apply;
use nim_lines::{LineFault, func, halves, number, numbers, parts, push_answer};
use std::alloc::Global;

/// `counts FUNC`: its parameters, fewest and most reads, and results.
pub fn counts_line(alloc: Global, text: &str, out: &mut String) -> Result<(), LineFault> {
    let func = func(text.trim())?;
    let (params, fewest, most, writes) = (
        func.params(),
        func.fewest_reads(),
        func.most_reads(),
        func.writes(),
    );
    let text = format!(in alloc;
        "parameters {params}, reads {fewest} to {most}, results {writes}\n"
    )?;
    out.push_str(text.as_str())?;
    Ok(())
}

/// `has_counts FUNC PARAMETERS READS RESULTS`.
pub fn has_counts_line(alloc: Global, text: &str, out: &mut String) -> Result<(), LineFault> {
    push_answer(out, has_counts(alloc, text)?)
}

fn has_counts(alloc: Global, text: &str) -> Result<bool, LineFault> {
    let (name, counts) = halves(text.trim(), " ")?;
    let counts = numbers::<usize>(alloc, counts)?;
    let [params, reads, writes] = counts.as_slice() else {
        return Err(LineFault::Form("three numbers are counts"));
    };
    Ok(func(name)?.has_counts(*params, *reads, *writes))
}

/// `apply FUNC PARAM .. of VALUE | VALUE -> SHAPE ..`: the results, a line each. A value `same N` is the one of number
/// N once more.
pub fn apply_line(alloc: Global, text: &str, out: &mut String) -> Result<(), LineFault> {
    let (task, to) = halves(text, "->")?;
    let (head, from) = parts(task, " of ");
    let (name, params) = parts(head.trim(), " ");
    let params = numbers::<i64>(alloc, params)?;
    let (values, reads) = operands(alloc, from)?;
    let shapes = shapes(alloc, to)?;
    let results = applied(
        alloc,
        func(name)?,
        params.as_slice(),
        values.as_slice(),
        reads.as_slice(),
        shapes.as_slice(),
    )?;
    for result in &results {
        push_value(alloc, out, result)?;
    }
    Ok(())
}

/// Values with `|` between them, and which of them are read in turn.
fn operands(alloc: Global, text: &str) -> Result<(Vec<Value>, Vec<usize>), LineFault> {
    let (mut values, mut reads) = (Vec::new(alloc), Vec::new(alloc));
    if text.trim().is_empty() {
        return Ok((values, reads));
    }
    for one in text.split('|') {
        match one.trim().strip_prefix("same ") {
            Some(place) => reads.push(number::<usize>(place)?)?,
            None => {
                reads.push(values.len())?;
                values.push(value(alloc, one)?)?;
            }
        }
    }
    Ok((values, reads))
}

fn applied(
    alloc: Global,
    func: Func,
    params: &[i64],
    values: &[Value],
    reads: &[usize],
    shapes: &[Shape],
) -> Result<Vec<Value>, LineFault> {
    if !func.has_counts(params.len(), reads.len(), shapes.len()) {
        return Err(LineFault::Form("the counts aren't those of the function"));
    }
    if !reads.iter().all(|place| *place < values.len()) {
        return Err(LineFault::Form("there is no such value"));
    }
    if !shapes.iter().all(|shape| shape.width >= 1) {
        return Err(LineFault::Form("a shape has a column"));
    }
    Ok(apply(alloc, func, params, values, reads, shapes)?)
}
