ghost use Rattle.std.specs.Prelude.{◌≡◌, ◌<◌, ◌≤◌, length, IfOk, IfErr, OnOk, None, Some};
ghost use Rattle.std.specs.List.{prefix_len};
ghost use Rattle.std.specs.Char.{is_ascii_digit};
ghost use Rattle.nim_lex.specs.Bytes.{is_name_byte};
ghost use Rattle.nim_lex.specs.Pieces.{front_of, sign_length};
ghost use Rattle.nim_lex.specs.Rules.{front_rule};

use crate::{TokenKind, is_name_byte, number};

/// No token begins at the byte.
const STRAY: u8 = 2;

/// The name is longer than `LONGEST_NAME`.
const LONG_NAME: u8 = 3;

/// The number is greater than `MOST`.
const BIG_NUMBER: u8 = 4;

/// The longest name that is taken.
const LONGEST_NAME: usize = 16;

/// The greatest number that is taken.
const MOST: u64 = 9_223_372_036_854_775_808;

/// What stands at the front of a text: so many bytes, and which token they are or which rule they
/// break.
#[derive(Clone, Copy)]
pub struct Found {
    pub len: usize,
    pub kind: Result<TokenKind, u8>,
}

/// The longest token at the front of a text that begins with no blank and no comment.
#[tactic(auto, unfolding(crate::specs::Rules::broken_by))]
pub fn front(text: &[u8]) -> Found
    requires { 0 < length text.now }
    ensures len { result.len ≡ (front_of text.now).len }
    ensures some { 0 < result.len }
    ensures within { result.len ≤ length text.now }
    ensures token { IfOk result.kind (λ kind. (front_of text.now).kind ≡ Some kind) }
    ensures sound { OnOk result.kind (front_rule text.now ≡ None) }
    ensures broken { IfErr result.kind (λ rule. front_rule text.now ≡ Some rule) }
{
    let first = text[0];
    if first.is_ascii_alphabetic() {
        let len = name_len(text);
        let kind = if len > LONGEST_NAME {
            Err(LONG_NAME)
        } else {
            Ok(TokenKind::Name)
        };
        Found { len, kind }
    } else if first.is_ascii_digit() {
        let len = digits_len(text);
        let value = number(&text[..len]);
        let kind = if value > MOST {
            Err(BIG_NUMBER)
        } else {
            Ok(TokenKind::Number(value))
        };
        Found { len, kind }
    } else {
        match sign_len(text) {
            0 => Found {
                len: 1,
                kind: Err(STRAY),
            },
            len => Found {
                len,
                kind: Ok(TokenKind::Sign),
            },
        }
    }
}

fn name_len(text: &[u8]) -> usize
    ensures len { result ≡ prefix_len is_name_byte text.now }
    ensures within { result ≤ length text.now }
{
    text.iter().take_while(|b| is_name_byte(**b)).count()
}

fn digits_len(text: &[u8]) -> usize
    ensures len { result ≡ prefix_len is_ascii_digit text.now }
    ensures within { result ≤ length text.now }
{
    text.iter().take_while(|b| b.is_ascii_digit()).count()
}

/// How many bytes the sign at the front has, 0 where there is none.
fn sign_len(text: &[u8]) -> usize
    ensures { result ≡ sign_length text.now }
{
    match text {
        [b'<' | b'>' | b'!', b'=', ..] | [b'-', b'>', ..] => 2,
        [b'[' | b']' | b'(' | b')' | b',', ..] => 1,
        [b'+' | b'-' | b'*' | b'/' | b'%', ..] => 1,
        [b'=' | b'<' | b'>', ..] => 1,
        _ => 0,
    }
}
