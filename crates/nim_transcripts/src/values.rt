use crate::shapes::shape;
use nim_base::{Copied, Value, fit, value_text};
use nim_lines::{LineFault, halves, number, numbers, parts, push_number, words};
use std::alloc::Global;

/// A value: its rows with commas between them, or `empty W` for one of W columns and no rows.
pub fn value(alloc: Global, text: &str) -> Result<Value, LineFault> {
    if let Some(width) = text.trim().strip_prefix("empty ") {
        return wide(alloc, number::<u32>(width)?);
    }
    let (first, _) = parts(text, ",");
    let Ok(width) = u32::try_from(first.split_whitespace().count()) else {
        return Err(LineFault::Form("a row is too wide"));
    };
    let mut value = wide(alloc, width)?;
    for row in text.split(',') {
        push(&mut value, numbers::<i64>(alloc, row)?.as_slice())?;
    }
    Ok(value)
}

fn wide(alloc: Global, width: u32) -> Result<Value, LineFault> {
    if width == 0 {
        return Err(LineFault::Form("a value has a column"));
    }
    Ok(Value::new(alloc, width))
}

fn push(value: &mut Value, row: &[i64]) -> Result<(), LineFault> {
    if row.len() != value.width() as usize || value.rows() == u32::MAX {
        return Err(LineFault::Form("rows are of one width"));
    }
    value.push_row(row)?;
    Ok(())
}

/// Adds a line with a value, as transcripts write it.
pub fn push_value(alloc: Global, out: &mut String, value: &Value) -> Result<(), LineFault> {
    if value.rows() == 0 {
        let width = value.width();
        out.push_str(format!(in alloc; "empty {width}")?.as_str())?;
    }
    for row in 0..value.rows() {
        if row > 0 {
            out.push_str(", ")?;
        }
        push_row(alloc, out, value, row)?;
    }
    out.push_str("\n")?;
    Ok(())
}

fn push_row(alloc: Global, out: &mut String, value: &Value, row: u32) -> Result<(), LineFault> {
    for column in 0..value.width() {
        if column > 0 {
            out.push_str(" ")?;
        }
        let cell = value.cell(row, column);
        out.push_str(format!(in alloc; "{cell}")?.as_str())?;
    }
    Ok(())
}

/// `fit VALUE -> SHAPE`, by the call that copies and by the one that takes the value.
pub fn fit_line(alloc: Global, text: &str, out: &mut String) -> Result<(), LineFault> {
    let (from, to) = halves(text, "->")?;
    let (value, shape) = (value(alloc, from)?, shape(to)?);
    if shape.width == 0 {
        return Err(LineFault::Form("a shape has a column"));
    }
    push_value(alloc, out, &fit(alloc, &value, shape)?)?;
    push_value(alloc, out, &value.into_shape(shape)?)
}

/// `filled NUMBER -> SHAPE` and, with `counts_up`, `iota NUMBER -> SHAPE`; the value is copied.
pub fn made_line(
    alloc: Global,
    text: &str,
    counts_up: bool,
    out: &mut String,
) -> Result<(), LineFault> {
    let (first, to) = halves(text, "->")?;
    let (first, shape) = (number::<i64>(first)?, shape(to)?);
    if shape.width == 0 {
        return Err(LineFault::Form("a shape has a column"));
    }
    let value = if counts_up {
        Value::iota(alloc, shape, first)?
    } else {
        Value::filled(alloc, shape, first)?
    };
    push_value(alloc, out, &value.copy()?)
}

/// `cell ROW COLUMN of VALUE`.
pub fn cell_line(alloc: Global, text: &str, out: &mut String) -> Result<(), LineFault> {
    let (place, from) = halves(text, " of ")?;
    let (row, column) = halves(place.trim(), " ")?;
    let value = value(alloc, from)?;
    push_number(
        alloc,
        out,
        value.cell(number::<u32>(row)?, number::<u32>(column)?),
    )
}

/// `text NAME PART of VALUE`, as `output` prints it.
pub fn text_line(alloc: Global, text: &str, out: &mut String) -> Result<(), LineFault> {
    let (head, from) = halves(text, " of ")?;
    let head = words(alloc, head)?;
    let [name, part] = head.as_slice() else {
        return Err(LineFault::Form("a part has a name and a number"));
    };
    let mut bytes = Vec::new(alloc);
    value_text(
        alloc,
        name,
        number::<u32>(part)?,
        &value(alloc, from)?,
        &mut bytes,
    )?;
    match str::from_utf8(bytes.as_slice()) {
        Ok(text) => out.push_str(text)?,
        Err(_) => return Err(LineFault::Form("a part isn't printed as text")),
    }
    Ok(())
}
