//! The words of a line, as `specs/Words.antt` says them.

ghost use Rattle.std.specs.Prelude.{◌≡◌, ◌≤◌, ◌∷◌, [], length, IfSome, None};
ghost use Rattle.std.specs.List.{position_or_len};
ghost use Rattle.nim_lex.specs.Bytes.{is_hash};
ghost use Rattle.nim_schedule.specs.Fault.{Gives};
ghost use Rattle.nim_schedule.specs.Words as spec;

use crate::fault::Unread;
use nim_base::{NoMemory, Seq};
use nim_lex::{are_digits, are_name_bytes, blanks_len, number, word_len};
use std::alloc::Global;

/// The most digits of a number.
const MOST_DIGITS: usize = 9;

/// The longest name of a block.
const LONGEST_NAME: usize = 16;

/// A line without its comment.
pub fn uncommented(line: &[u8]) -> &[u8]
    ensures { result.now ≡ spec.uncommented line.now }
{
    &line[..comment_at(line)]
}

/// The first word of a text, and the text behind it.
pub fn next_word(text: &[u8]) -> Option<(&[u8], &[u8])>
    ensures some { IfSome result (λ cut. spec.words_in text.now ≡ cut.0.now ∷ spec.words_in cut.1.now) }
    ensures none { result ≡ None → spec.words_in text.now ≡ [] }
{
    let (_, text) = text.split_at(blanks_len(text));
    let len = word_len(text);
    if len > 0 {
        Some(text.split_at(len))
    } else {
        None
    }
}

/// A number of at most `MOST_DIGITS` digits.
#[tactic(auto, unfolding(crate::specs::Words::small_number))]
pub fn small_number(word: &[u8]) -> Result<u32, Unread>
    ensures { Gives (spec.small_number word.now) result }
{
    if is_short(MOST_DIGITS, word) && are_digits(word) {
        Ok(number(word) as u32)
    } else {
        Err(Unread::Malformed)
    }
}

/// The name of a block.
#[tactic(auto, unfolding(crate::specs::Words::block_word))]
pub fn block_word(alloc: Global, word: &[u8]) -> Result<Seq<u8>, Unread>
    ensures { Gives (spec.block_word word.now) result }
{
    if !(is_short(LONGEST_NAME, word) && are_name_bytes(word)) {
        return Err(Unread::Malformed);
    }
    let mut name = Vec::new(alloc);
    match name.extend_from_slice(word) {
        Ok(()) => Ok(Seq::from_vec(name)),
        Err(_refused) => Err(Unread::NoMemory),
    }
}

/// Where the comment of a line begins, or else where the line ends.
fn comment_at(line: &[u8]) -> usize
    ensures at { result ≡ position_or_len is_hash line.now }
    ensures within { result ≤ length line.now }
{
    line.iter().take_while(|b| **b != b'#').count()
}

/// A word of 1 to so many bytes.
fn is_short(most: usize, word: &[u8]) -> bool
    ensures { result ≡ spec.is_short most word.now }
{
    !word.is_empty() && word.len() <= most
}
