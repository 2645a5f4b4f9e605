//! The rest of a line, from which each production takes its tokens.

ghost use Rattle.std.specs.Prelude.{◌≡◌, ◌-◌, take, drop, IfOk, None, Some, true, false};
ghost use Rattle.nim_parse.specs.Input as spec;
ghost use Rattle.nim_parse.specs.Input.{Reads};
ghost use Rattle.nim_lex.specs.Texts.{token_text};

use crate::fault::Unread;
use nim_base::{NoMemory, Seq};
use nim_lex::{Token, TokenKind, signed};
use std::alloc::Global;
use std::marker::Model;

/// The rest of a line: productions take its tokens one by one. Contracts see it as `Input` of `specs/Input.antt`.
#[derive(Drop)]
pub struct Cursor<'a> {
    source: &'a [u8],
    tokens: &'a [Token],
    fits: bool,
}

impl<'a> Model for Cursor<'a> {
    ghost use Rattle.nim_parse.specs.Input.{Input, input_code};

    ghost Value = { Input };

    ghost coded = { input_code };

    ghost use Rattle.nim_parse.specs.Cursor.{input_of};

    ghost view = { input_of };
}

impl<'a> Cursor<'a> {
    /// A line of which nothing was read: its tokens, and the bytes of the whole driver.
    pub fn new(source: &'a [u8], tokens: &'a [Token]) -> Cursor<'a>
        ensures { result ≡ spec.unread_line source.now tokens.now }
    {
        Cursor {
            source,
            tokens,
            fits: true,
        }
    }

    /// Each int that was read is in the range of an `i64`.
    pub fn fits(&self) -> bool
        ensures { result ≡ self.now.fits }
    {
        self.fits
    }

    /// How many tokens are left.
    #[tactic(auto, unfolding(crate::specs::Input::left))]
    pub fn left(&self) -> usize
        ensures { result ≡ spec.left self.now }
    {
        self.tokens.len()
    }

    /// Whether this word or sign comes next.
    #[tactic(auto, unfolding(crate::specs::Input::sees))]
    pub fn sees(&self, text: &[u8]) -> bool
        ensures { result ≡ spec.sees text.now self.now }
    {
        match self.tokens {
            [first, ..] => text_of(self.source, *first) == text,
            [] => false,
        }
    }

    #[tactic(auto, unfolding(crate::specs::Input::past_token))]
    fn advance(&mut self)
        ensures { self.new ≡ spec.past_token self.old }
    {
        if let [_, rest @ ..] = self.tokens {
            self.tokens = rest;
        }
    }

    /// Takes this word or sign if it comes next, and says whether it did.
    #[tactic(auto, unfolding(crate::specs::Input::past_if_seen))]
    pub fn eat(&mut self, text: &[u8]) -> bool
        ensures found { result ≡ spec.sees text.now self.old }
        ensures after { self.new ≡ spec.past_if_seen text.now self.old }
    {
        let found = self.sees(text);
        if found {
            self.advance();
        }
        found
    }

    /// Takes this word or sign; `Malformed` where it doesn't come next.
    #[tactic(auto, unfolding(crate::specs::Input::expect))]
    pub fn expect(&mut self, text: &[u8]) -> Result<(), Unread>
        ensures { Reads (spec.expect text.now self.old) result self.new }
    {
        if self.sees(text) {
            self.advance();
            Ok(())
        } else {
            Err(Unread::Malformed)
        }
    }

    /// The end of the line; `Malformed` where tokens are left.
    #[tactic(auto, unfolding(crate::specs::Input::done))]
    pub fn done(&mut self) -> Result<(), Unread>
        ensures { Reads (spec.done self.old) result self.new }
    {
        if self.left() == 0 {
            Ok(())
        } else {
            Err(Unread::Malformed)
        }
    }

    /// Whether a name comes next.
    #[tactic(auto, unfolding(crate::specs::Input::sees_name))]
    pub fn sees_name(&self) -> bool
        ensures { result ≡ spec.sees_name self.now }
    {
        match self.tokens {
            [first, ..] => matches!(first.kind, TokenKind::Name),
            [] => false,
        }
    }

    /// Takes a name and copies its bytes; `Malformed` where none comes next.
    #[tactic(auto, unfolding(crate::specs::Input::name))]
    pub fn name(&mut self, alloc: Global) -> Result<Seq<u8>, Unread>
        ensures { Reads (spec.name self.old) result self.new }
    {
        match self.tokens {
            [first, ..] if matches!(first.kind, TokenKind::Name) => {
                let text = bytes(alloc, text_of(self.source, *first))?;
                self.advance();
                Ok(text)
            }
            _ => Err(Unread::Malformed),
        }
    }

    /// Takes a number without a sign; `Malformed` where none comes next.
    #[tactic(auto, unfolding(crate::specs::Input::number))]
    pub fn number(&mut self) -> Result<u64, Unread>
        ensures { Reads (spec.number self.old) result self.new }
    {
        match self.tokens {
            [first, ..] => match first.kind {
                TokenKind::Number(value) => {
                    self.advance();
                    Ok(value)
                }
                _ => Err(Unread::Malformed),
            },
            [] => Err(Unread::Malformed),
        }
    }

    #[tactic(auto, unfolding(crate::specs::Input::with_sign))]
    fn with_sign(&mut self, negative: bool, number: u64) -> i64
        ensures { spec.with_sign negative number self.old ≡ Some (result, self.new) }
    {
        match signed(negative, number) {
            Some(value) => value,
            None => {
                self.fits = false;
                0
            }
        }
    }

    /// Takes a number with its sign; `Malformed` where none comes next. One past the range is 0, and clears `fits`.
    #[tactic(auto, unfolding(crate::specs::Input::int))]
    pub fn int(&mut self) -> Result<i64, Unread>
        ensures { Reads (spec.int self.old) result self.new }
    {
        let negative = self.eat(b"-");
        let number = self.number()?;
        Ok(self.with_sign(negative, number))
    }
}

fn bytes(alloc: Global, text: &[u8]) -> Result<Seq<u8>, NoMemory>
    ensures { IfOk result (λ all. all ≡ text.now) }
{
    let mut all = Vec::new(alloc);
    all.extend_from_slice(text)?;
    Ok(Seq::from_vec(all))
}

/// The bytes of a token.
fn text_of<'a>(source: &'a [u8], token: Token) -> &'a [u8]
    ensures { result.now ≡ token_text source.now token }
{
    let at = source.len().min(token.at as usize);
    let rest = &source[at..];
    &rest[..rest.len().min(token.len as usize)]
}
