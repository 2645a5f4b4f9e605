//! The lines of a data file, as `specs/Lines.antt` says them.

ghost use Rattle.std.specs.Prelude.{◌≡◌, ◌-◌, ◌+◌, ◌≤◌, length, slice_index, IfOk, OnOk, None, Some, ◌++◌, ◌∷◌, []};
ghost use Rattle.std.specs.Char.{is_ascii_alphabetic};
ghost use Rattle.nim_lex.specs.Bytes.{is_blank};
ghost use Rattle.nim_data.specs.Lines as spec;
ghost use Rattle.nim_data.specs.Fault.{Fills, Gives};

use crate::fault::Unread;
use nim_base::{NoMemory, Seq};
use nim_lex::{are_digits, are_name_bytes, blanks_len, is_blank, number, signed, word_len};
use std::alloc::Global;

/// A header, `NAME PART ROWS WIDTH`.
#[derive(Drop)]
pub struct Header {
    pub name: Seq<u8>,
    pub part: u32,
    pub rows: u32,
    pub width: u32,
}

/// The longest name.
const LONGEST_NAME: usize = 16;

/// The greatest number of a part, and the most rows and columns.
const LAST_PART: u32 = 63;

const MOST_ROWS: u32 = 65_536;

const MOST_WIDTH: u32 = 65_536;

/// No word stands in a text.
pub fn is_bare(text: &[u8]) -> bool
    ensures { result ≡ spec.is_bare text.now }
{
    text.iter().all(|b| is_blank(*b))
}

/// Reads a row of a width into a buffer, whatever that held.
pub fn read_row(width: u32, line: &[u8], cells: &mut Vec<i64>) -> Result<(), Unread>
    ensures cells { Fills (spec.row width line.now) result cells.new.items }
    ensures width { OnOk result (length cells.new.items ≡ width) }
{
    cells.clear();
    let mut text = line;
    for _turn in 0..width {
        let (word, behind) = next_word(text);
        add(cells, cell(word)?)?;
        text = behind;
    }
    if is_bare(text) {
        Ok(())
    } else {
        Err(Unread::Malformed)
    }
}

/// Reads a header.
#[tactic(auto, unfolding(crate::specs::Lines::header))]
pub fn read_header(alloc: Global, line: &[u8]) -> Result<Header, Unread>
    ensures header { Gives (spec.header line.now) result }
    ensures wide { IfOk result (λ header. 1 ≤ header.width) }
{
    let (name, rest) = next_word(line);
    let (part, rest) = next_word(rest);
    let (rows, rest) = next_word(rest);
    let (width, rest) = next_word(rest);
    let part = bounded(LAST_PART, part)?;
    let rows = bounded(MOST_ROWS, rows)?;
    let width = bounded(MOST_WIDTH, width)?;
    if !(is_short_name(name) && width > 0 && is_bare(rest)) {
        return Err(Unread::Malformed);
    }
    let name = bytes(alloc, name)?;
    Ok(Header {
        name,
        part,
        rows,
        width,
    })
}

fn add(cells: &mut Vec<i64>, cell: i64) -> Result<(), NoMemory>
    ensures { OnOk result (cells.new.items ≡ cells.old.items ++ cell ∷ []) }
{
    cells.push(cell)?;
    Ok(())
}

/// The first word of a text, empty where there is none, and the text behind it.
#[tactic(auto, unfolding(crate::specs::Lines::word, crate::specs::Lines::behind_first_word))]
fn next_word(text: &[u8]) -> (&[u8], &[u8])
    ensures word { result.0.now ≡ spec.word text.now }
    ensures behind { result.1.now ≡ spec.behind_first_word text.now }
{
    let (_, text) = text.split_at(blanks_len(text));
    text.split_at(word_len(text))
}

fn is_numeral(word: &[u8]) -> bool
    ensures { result ≡ spec.is_numeral word.now }
{
    if word.is_empty() {
        return false;
    }
    are_digits(word)
}

#[tactic(auto, unfolding(crate::specs::Lines::bounded))]
fn bounded(most: u32, word: &[u8]) -> Result<u32, Unread>
    ensures { Gives (spec.bounded most word.now) result }
{
    let value = number(word);
    if is_numeral(word) && value <= u64::from(most) {
        Ok(value as u32)
    } else {
        Err(Unread::Malformed)
    }
}

#[tactic(auto, unfolding(crate::specs::Lines::whole))]
fn whole(negative: bool, digits: &[u8]) -> Result<i64, Unread>
    ensures { Gives (spec.whole negative digits.now) result }
{
    if !is_numeral(digits) {
        return Err(Unread::Malformed);
    }
    match signed(negative, number(digits)) {
        Some(value) => Ok(value),
        None => Err(Unread::Malformed),
    }
}

#[tactic(auto, unfolding(crate::specs::Lines::cell))]
fn cell(word: &[u8]) -> Result<i64, Unread>
    ensures { Gives (spec.cell word.now) result }
{
    match word {
        [] => Err(Unread::Malformed),
        [b'-', digits @ ..] => whole(true, digits),
        _ => whole(false, word),
    }
}

fn begins_with_letter(word: &[u8]) -> bool
    ensures { result ≡ is_ascii_alphabetic (slice_index word.now 0) }
{
    word.first().copied().unwrap_or(0).is_ascii_alphabetic()
}

#[tactic(auto, unfolding(crate::specs::Lines::is_short_name))]
fn is_short_name(word: &[u8]) -> bool
    ensures { result ≡ spec.is_short_name word.now }
{
    if word.len() > LONGEST_NAME || !begins_with_letter(word) {
        return false;
    }
    are_name_bytes(word)
}

fn bytes(alloc: Global, text: &[u8]) -> Result<Seq<u8>, NoMemory>
    ensures { IfOk result (λ all. all ≡ text.now) }
{
    let mut all = Vec::new(alloc);
    all.extend_from_slice(text)?;
    Ok(Seq::from_vec(all))
}
