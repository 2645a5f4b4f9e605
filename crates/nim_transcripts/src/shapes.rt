use nim_base::{Object, Shape, Slot, Version};
use nim_lines::{LineFault, number};
use std::alloc::Global;

/// Slots with blanks between them.
pub fn slots(alloc: Global, text: &str) -> Result<Vec<Slot>, LineFault> {
    let mut all = Vec::new(alloc);
    for word in text.split_whitespace() {
        all.push(Slot(number::<u16>(word)?))?;
    }
    Ok(all)
}

/// A shape, as `3x2`: three columns and two rows.
pub fn shape(text: &str) -> Result<Shape, LineFault> {
    let Some((width, rows)) = text.trim().split_once('x') else {
        return Err(LineFault::Form("a shape is COLUMNSxROWS"));
    };
    Ok(Shape {
        width: number::<u32>(width)?,
        rows: number::<u32>(rows)?,
    })
}

/// Shapes with blanks between them.
pub fn shapes(alloc: Global, text: &str) -> Result<Vec<Shape>, LineFault> {
    let mut all = Vec::new(alloc);
    for word in text.split_whitespace() {
        all.push(shape(word)?)?;
    }
    Ok(all)
}

/// Adds objects with their versions, each behind a blank, as ` 3@7`.
pub fn push_contents(
    alloc: Global,
    out: &mut String,
    contents: &[(Object, Version)],
) -> Result<(), LineFault> {
    for (object, version) in contents {
        let number = object.0;
        out.push_str(format!(in alloc; " {number}@{version}")?.as_str())?;
    }
    Ok(())
}
