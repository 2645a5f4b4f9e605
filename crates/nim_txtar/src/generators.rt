use crate::FileFault;
use std::alloc::Global;

/// Adds a line of a section to its text. `%text TEXT` stands for a text with escapes and no end of line of its own,
/// `%repeat N TEXT` for N of them, one behind the other; any other line stands for itself.
pub(crate) fn push_line(
    alloc: Global,
    text: &mut Vec<u8>,
    line: &str,
    number: usize,
) -> Result<(), FileFault> {
    if let Some(rest) = line.strip_prefix("%text ") {
        return push_escaped(alloc, text, rest, 0, number);
    }
    if let Some(rest) = line.strip_prefix("%repeat ") {
        return push_repeated(alloc, text, rest, number);
    }
    if line.starts_with('%') {
        let what = "a line that begins with % is `%text TEXT` or `%repeat N TEXT`";
        return Err(FileFault::At { line: number, what });
    }
    text.extend_from_slice(line.as_bytes())?;
    text.push(b'\n')?;
    Ok(())
}

/// What stands behind `%repeat`: a number and a text. A text that doesn't count is read once.
fn push_repeated(
    alloc: Global,
    text: &mut Vec<u8>,
    rest: &str,
    number: usize,
) -> Result<(), FileFault> {
    let what = "behind `%repeat` stands a number and a text";
    let Some((count, piece)) = rest.split_once(' ') else {
        return Err(FileFault::At { line: number, what });
    };
    let Ok(count) = count.parse::<u32>() else {
        return Err(FileFault::At { line: number, what });
    };
    if piece.contains("\\#") {
        for turn in 0..count {
            push_escaped(alloc, text, piece, turn, number)?;
        }
        return Ok(());
    }
    let mut once = Vec::new(alloc);
    push_escaped(alloc, &mut once, piece, 0, number)?;
    for _ in 0..count {
        text.extend_from_slice(&once)?;
    }
    Ok(())
}

/// Adds a text with escapes: `\n`, `\r` and `\t` as in Rust, `\s` a space, `\xFF` a byte, and `\#` the number of the
/// turn, from 0.
pub fn push_escaped(
    alloc: Global,
    text: &mut Vec<u8>,
    piece: &str,
    turn: u32,
    number: usize,
) -> Result<(), FileFault> {
    for (at, part) in piece.split('\\').enumerate() {
        let rest = if at == 0 {
            part.as_bytes()
        } else {
            push_escape(alloc, text, part.as_bytes(), turn, number)?
        };
        text.extend_from_slice(rest)?;
    }
    Ok(())
}

/// What stands behind a `\`; gives back what follows the escape.
fn push_escape<'a>(
    alloc: Global,
    text: &mut Vec<u8>,
    part: &'a [u8],
    turn: u32,
    number: usize,
) -> Result<&'a [u8], FileFault> {
    let rest = match part {
        [b'n', rest @ ..] => pushed(text, b'\n', rest)?,
        [b'r', rest @ ..] => pushed(text, b'\r', rest)?,
        [b't', rest @ ..] => pushed(text, b'\t', rest)?,
        [b's', rest @ ..] => pushed(text, b' ', rest)?,
        [b'#', rest @ ..] => {
            text.extend_from_slice(format!(in alloc; "{turn}")?.as_bytes())?;
            rest
        }
        [b'x', high, low, rest @ ..] => pushed(text, byte_of(*high, *low), rest)?,
        _ => {
            let what = "an escape is one of \\n \\r \\t \\s \\# and \\xFF";
            return Err(FileFault::At { line: number, what });
        }
    };
    Ok(rest)
}

fn pushed<'a>(text: &mut Vec<u8>, byte: u8, rest: &'a [u8]) -> Result<&'a [u8], FileFault> {
    text.push(byte)?;
    Ok(rest)
}

/// The byte of two hexadecimal digits.
fn byte_of(high: u8, low: u8) -> u8 {
    digit_of(high) << 4 | digit_of(low)
}

/// A byte that is no digit stands for 0.
fn digit_of(digit: u8) -> u8 {
    match digit {
        b'0'..=b'9' => digit - b'0',
        b'a'..=b'f' => digit - b'a' + 10,
        b'A'..=b'F' => digit - b'A' + 10,
        _ => 0,
    }
}
