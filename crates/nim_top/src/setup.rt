//! How the words say that a job is run.

ghost use Rattle.std.specs.Prelude.{◌≡◌, ◌-◌, ◌^◌, min};
ghost use Rattle.std.specs.Option.{option_and_then, option_map};
ghost use Rattle.nim_lex.specs.Numbers as lex;
ghost use Rattle.nim_schedule.specs.Words.{is_short};
ghost use Rattle.nim_top.specs.Parts.{below_2_64, mixed_word};
ghost use Rattle.nim_top.specs.Words as spec;
ghost use Rattle.nim_top.specs.Words.{word_of};

use nim_course::Setup;
use nim_lex::are_digits;
use nim_place::Placement;

/// The most digits of a number on the command line.
const MOST_DIGITS: usize = 20;

/// The most workers that a job is run on.
const MOST_WORKERS: u64 = 16;

/// The workers of a job where none are said.
const WORKERS: u16 = 4;

/// How a job is run, by what is said of its workers and of placement; nothing where one of both isn't in form.
pub fn setup(workers: Option<&str>, place: Option<&str>) -> Option<Setup>
    ensures { result ≡ option_and_then
        (λ workers. option_map (spec.setup_with workers) (spec.place_said (word_of place.entry)))
        (spec.workers_said (word_of workers.entry)) }
{
    let workers = workers_said(workers)?;
    let place = place_said(place)?;
    Some(Setup { workers, place })
}

/// How many workers are said, or 4.
fn workers_said(word: Option<&str>) -> Option<u16>
    ensures { result ≡ spec.workers_said (word_of word.entry) }
{
    let Some(word) = word else {
        return Some(WORKERS);
    };
    workers_in(number_word(word.as_bytes())?)
}

/// 1 to 16 workers.
fn workers_in(number: u64) -> Option<u16>
    ensures { result ≡ spec.workers_in number }
{
    if 1 <= number && number <= MOST_WORKERS {
        Some(number as u16)
    } else {
        None
    }
}

/// The placement that is said, or `cyclic`.
fn place_said(word: Option<&str>) -> Option<Placement>
    ensures { result ≡ spec.place_said (word_of word.entry) }
{
    match word {
        Some(word) => place_word(word),
        None => Some(Placement::Cyclic),
    }
}

/// `cyclic`, `block`, or `mixed-` and a number.
#[tactic(auto, unfolding(crate::specs::Words::place_word))]
fn place_word(word: &str) -> Option<Placement>
    ensures { result ≡ spec.place_word word.now }
{
    if word == "cyclic" {
        Some(Placement::Cyclic)
    } else if word == "block" {
        Some(Placement::Block)
    } else {
        mixed_word(word.as_bytes())
    }
}

/// `mixed-` and a number.
fn mixed_word(word: &[u8]) -> Option<Placement>
    ensures { result ≡ mixed_word word.now }
{
    let number = number_word(word.strip_prefix(b"mixed-")?)?;
    Some(Placement::Mixed(number))
}

/// The number of 1 to 20 digits; nothing where it isn't below 2^64.
#[tactic(auto, unfolding(crate::specs::Words::number_word))]
fn number_word(word: &[u8]) -> Option<u64>
    ensures { result ≡ option_and_then below_2_64 (spec.number_word word.now) }
{
    if is_short(word) && are_digits(word) {
        u64::try_from(number(word)).ok()
    } else {
        None
    }
}

/// A word of 1 to 20 bytes.
fn is_short(word: &[u8]) -> bool
    ensures { result ≡ is_short 20 word.now }
{
    !word.is_empty() && word.len() <= MOST_DIGITS
}

/// The number that digits write, or the greatest of a `u128` where it is greater.
fn number(digits: &[u8]) -> u128
    ensures { result ≡ min (lex.decimal_value digits.now) (2 ^ 128 - 1) }
{
    let mut value = 0u128;
    for digit in digits {
        let unit = u128::from(digit.saturating_sub(b'0'));
        value = value.saturating_mul(10).saturating_add(unit);
    }
    value
}
