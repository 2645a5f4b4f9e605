//! The tokens of a driver's text, or the first line that a rule of the text refuses; and what readers of text share.
#![tactic(auto)]

mod bytes;
mod fault;
mod front;
mod line;
mod lines;
mod numbers;
mod scan;
mod token;
mod words;

pub use bytes::{is_blank, is_name_byte};
pub use fault::{LexFault, Refusal};
pub use lines::{end_line, line_len};
pub use numbers::{number, signed};
pub use scan::tokens;
pub use token::{Token, TokenKind};
pub use words::{are_digits, are_name_bytes, blanks_len, word_len};
