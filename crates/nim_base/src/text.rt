ghost use Rattle.std.specs.Prelude.{◌≡◌, ◌++◌, ◌*◌, ◌≤◌, ℕ, All, FitsSigned, List, drop, length, map, OnOk, OnErr};
ghost use Rattle.std.specs.Int.{w64};
ghost use Rattle.std.specs.Fmt.{signed_decimal};
ghost use Rattle.std.specs.List.{flat_map, join_with_byte};
ghost use Rattle.nim_base.specs.ReadBack.{IsWord, read_part};
ghost use Rattle.nim_base.specs.Text.{header_text, row_text, text_of};
ghost use Rattle.nim_base.specs.Value.{rows_of};

use crate::{NoMemory, Value};
use itoa::Buffer;
use std::alloc::Global;

/// Writes a part of a variable at the end of `out`, as `output` prints it: a line with the name,
/// the part, the number of rows and the width, and a line for each row (`specs/Text.antt`). What
/// is written is read as the same part, whatever follows (`specs/ReadBack.antt`).
pub fn value_text(
    alloc: Global,
    name: &str,
    part: u32,
    value: &Value,
    out: &mut Vec<u8>,
) -> Result<(), NoMemory>
    ensures ok { OnOk result (out.new.items ≡ out.old.items ++ text_of name.now part value.now) }
    ensures err { OnErr result (out.new.items ≡ out.old.items) }
    ensures read_back { OnOk result ((rest : List ℕ) → IsWord name.now →
        read_part (drop (length out.old.items) out.new.items ++ rest)
        ≡ Some (record { name = name.now; part = part; value = value.now; rest = rest })) }
{
    let rows = value.rows();
    let width = value.width();
    let mut text = format!(in alloc; "{name} {part} {rows} {width}\n")?.into_bytes();
    push_rows(&mut text, value.cells(), rows, width)?;
    out.extend_from_slice(&text)?;
    Ok(())
}

fn push_rows(text: &mut Vec<u8>, cells: &[i64], rows: u32, width: u32) -> Result<(), NoMemory>
    requires { rows * width ≤ length cells.now }
    ensures written { OnOk result
        (text.new.items ≡ text.old.items ++ flat_map row_text (rows_of rows width cells.now)) }
    ensures fit { OnOk result (All (All (FitsSigned w64)) (rows_of rows width cells.now)) }
{
    let mut rest = cells;
    for _ in 0..rows {
        let (row, more) = rest.split_at(width as usize);
        push_cells(text, row)?;
        text.push(b'\n')?;
        rest = more;
    }
    Ok(())
}

/// The cells with one space between.
fn push_cells(text: &mut Vec<u8>, row: &[i64]) -> Result<(), NoMemory>
    ensures written { OnOk result (text.new.items ≡ text.old.items ++ join_with_byte 32 (map signed_decimal row.now)) }
    ensures fit { OnOk result (All (FitsSigned w64) row.now) }
{
    let Some((first, rest)) = row.split_first() else {
        return Ok(());
    };
    let mut number = Buffer::new();
    text.extend_from_slice(number.format(*first).as_bytes())?;
    for cell in rest {
        text.push(b' ')?;
        text.extend_from_slice(number.format(*cell).as_bytes())?;
    }
    Ok(())
}
