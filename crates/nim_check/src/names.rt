//! Names: which have a meaning of their own, and where one stands among others.

ghost use Rattle.std.specs.Prelude.{◌≡◌, ◌∷◌, ◌≤◌, [], bytes_eq, encode_utf8, if◌then◌else◌, length, map, nat_lt, IfOk};
ghost use Rattle.std.specs.List.{list_any};
ghost use Rattle.nim_check.specs.Made.{block_names, ascii_text, var_names};
ghost use Rattle.nim_check.specs.Names.{func_among, func_of, has_twice, is_in, place_in, reserved};

use nim_base::{Func, Name, NoMemory, Seq};
use nim_parse::{Block, Var};
use std::alloc::Global;
use std::collections::BTreeMap;

/// Whether a word is this text.
fn is(word: &[u8], text: &[u8]) -> bool
    ensures { result ≡ bytes_eq text.now word.now }
{
    text == word
}

/// The words that have a meaning of their own in drivers.
const RESERVED: [&[u8]; 17] = [
    b"nimbus",
    b"steps",
    b"var",
    b"block",
    b"end",
    b"else",
    b"do",
    b"let",
    b"get",
    b"loop",
    b"while",
    b"if",
    b"checkpoint",
    b"output",
    b"with",
    b"each",
    b"i",
];

/// Whether a word is one of these.
fn stands_in(texts: &[&[u8]], word: &[u8]) -> bool
    ensures { result ≡ list_any (λ text. bytes_eq text.now word.now) texts.now }
{
    for text in texts {
        if is(word, text) {
            return true;
        }
    }
    false
}

/// Whether a word has a meaning of its own in drivers.
pub fn is_reserved(word: &[u8]) -> bool
    ensures { result ≡ is_in reserved word.now }
{
    stands_in(&RESERVED, word)
}

/// The functions by their names.
const FUNCTIONS: [(&[u8], Func); 15] = [
    (b"set", Func::Set),
    (b"copy", Func::Copy),
    (b"addc", Func::Addc),
    (b"mulc", Func::Mulc),
    (b"add", Func::Add),
    (b"sub", Func::Sub),
    (b"max", Func::Max),
    (b"sum", Func::Sum),
    (b"total", Func::Total),
    (b"count", Func::Count),
    (b"stencil", Func::Stencil),
    (b"keep", Func::Keep),
    (b"group", Func::Group),
    (b"merge", Func::Merge),
    (b"split", Func::Split),
];

/// The function that has this name among these.
fn func_among(functions: &[(&[u8], Func)], word: &[u8]) -> Option<Func>
    ensures { result ≡ func_among (map (λ f. (f.0.now, f.1)) functions.now) word.now }
{
    for (name, func) in functions {
        if is(word, name) {
            return Some(*func);
        }
    }
    None
}

/// The function that has this name.
#[tactic(auto, unfolding(crate::specs::Names::func_of, crate::specs::Names::functions))]
pub fn func_of(word: &[u8]) -> Option<Func>
    ensures { result ≡ func_of word.now }
{
    func_among(&FUNCTIONS, word)
}

/// The place of a word among these; their number where it isn't there.
pub fn place_in(words: &[Seq<u8>], word: &[u8]) -> usize
    ensures place { result ≡ place_in words.now word.now }
    ensures within { result ≤ length words.now }
{
    for (at, other) in words.iter().enumerate() {
        if is(word, other.as_slice()) {
            return at;
        }
    }
    words.len()
}

/// The place of the variable with this name; the number of the variables where there is none.
pub fn var_place(vars: &[Var], word: &[u8]) -> usize
    ensures place { result ≡ place_in (var_names vars.now) word.now }
    ensures within { result ≤ length vars.now }
{
    for (at, var) in vars.iter().enumerate() {
        if is(word, var.name.as_slice()) {
            return at;
        }
    }
    vars.len()
}

/// The place of the block with this name; the number of the blocks where there is none.
pub fn block_place(blocks: &[Block], word: &[u8]) -> usize
    ensures place { result ≡ place_in (block_names blocks.now) word.now }
    ensures within { result ≤ length blocks.now }
{
    for (at, block) in blocks.iter().enumerate() {
        if is(word, block.name.as_slice()) {
            return at;
        }
    }
    blocks.len()
}

/// Whether a word is one of these.
pub fn is_in(words: &[Seq<u8>], word: &[u8]) -> bool
    ensures { result ≡ is_in words.now word.now }
{
    place_in(words, word) < words.len()
}

/// Whether there is a variable with this name.
#[tactic(auto, using(crate::proofs::Places::length_names))]
pub fn is_var(vars: &[Var], word: &[u8]) -> bool
    ensures { result ≡ is_in (var_names vars.now) word.now }
{
    var_place(vars, word) < vars.len()
}

/// Whether there is a block with this name.
#[tactic(auto, using(crate::proofs::Places::length_block_names))]
pub fn is_block(blocks: &[Block], word: &[u8]) -> bool
    ensures { result ≡ is_in (block_names blocks.now) word.now }
{
    block_place(blocks, word) < blocks.len()
}

/// Whether one of these words has a meaning of its own.
pub fn has_reserved(words: &[Seq<u8>]) -> bool
    ensures { result ≡ list_any (is_in reserved) words.now }
{
    for word in words {
        if is_reserved(word.as_slice()) {
            return true;
        }
    }
    false
}

/// Whether one of these words stands twice. There may be many of them, so they are looked at in an order.
pub fn has_twice(alloc: Global, words: &[Seq<u8>]) -> Result<bool, NoMemory>
    ensures { IfOk result (λ twice. twice ≡ has_twice words.now) }
{
    let mut later: BTreeMap<&[u8], ()> = BTreeMap::new(alloc);
    let mut left = words.len();
    while left > 0 {
        left -= 1;
        if later.insert(words[left].as_slice(), ())?.is_some() {
            return Ok(true);
        }
    }
    Ok(false)
}

fn text_byte(byte: u8) -> char
    ensures { encode_utf8 result ≡ (if nat_lt byte 128 then byte else 63) ∷ [] }
{
    if byte < 128 { char::from(byte) } else { '?' }
}

/// A name as a text.
pub fn name(alloc: Global, word: &[u8]) -> Result<Name, NoMemory>
    ensures { IfOk result (λ name. name ≡ ascii_text word.now) }
{
    let mut text = String::new(alloc);
    for byte in word {
        text.push(text_byte(*byte))?;
    }
    Ok(Name::from_string(text))
}
