ghost use Rattle.std.specs.Prelude.{◌≡◌, IfNone, IfOk};

use std::alloc::{AllocError, Global};

/// How many bytes of a line are shown.
const SHOWN: usize = 100;

/// Where a text differs from the one that is wanted, as lines to be printed; nothing only where they are the same.
pub fn difference(
    alloc: Global,
    name: &str,
    wanted: &[u8],
    got: &[u8],
) -> Result<Option<String>, AllocError>
    ensures { IfOk result (λ found. IfNone found (wanted.now ≡ got.now)) }
{
    if wanted == got {
        return Ok(None);
    }
    let at = first_difference(wanted, got);
    let line = ends_before(wanted, at).saturating_add(1);
    let wanted = line_at(alloc, wanted, at)?;
    let got = line_at(alloc, got, at)?;
    let text = format!(in alloc;
        "  {name}: byte {at} differs, in line {line}\n    wanted: {wanted}\n    got:    {got}"
    )?;
    Ok(Some(text))
}

/// The first place at which two texts differ.
fn first_difference(wanted: &[u8], got: &[u8]) -> usize {
    for (at, (one, other)) in wanted.iter().zip(got).enumerate() {
        if one != other {
            return at;
        }
    }
    wanted.len().min(got.len())
}

/// How many lines end before a place.
fn ends_before(text: &[u8], at: usize) -> usize {
    text.iter().take(at).filter(|byte| **byte == b'\n').count()
}

/// The line in which a place stands, with its bytes that aren't plain as escapes.
fn line_at(alloc: Global, text: &[u8], at: usize) -> Result<String, AllocError> {
    let front = &text[..at.min(text.len())];
    let first = match front.iter().rposition(|byte| *byte == b'\n') {
        Some(end) => end.saturating_add(1),
        None => 0,
    };
    let mut shown = String::new(alloc);
    let mut left = SHOWN;
    for byte in text.iter().skip(first) {
        if left == 0 {
            shown.push_str(" ..")?;
            break;
        }
        left -= 1;
        push_shown(alloc, &mut shown, *byte)?;
        if *byte == b'\n' {
            return Ok(shown);
        }
    }
    Ok(shown)
}

fn push_shown(alloc: Global, shown: &mut String, byte: u8) -> Result<(), AllocError> {
    if byte == b'\n' {
        return shown.push_str("\\n");
    }
    if byte.is_ascii_graphic() || byte == b' ' {
        return shown.push(char::from(byte));
    }
    shown.push_str(format!(in alloc; "\\x{byte:02X}")?.as_str())
}
