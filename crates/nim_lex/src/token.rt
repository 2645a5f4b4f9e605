/// What a token is. Its text is its bytes in the source.
#[derive(Clone, Copy, Debug, PartialEq, Eq)]
pub enum TokenKind {
    /// A letter, then letters, digits and underscores: at most 16 bytes. Reserved words are names too.
    Name,
    /// A run of digits, and their value: at most 9,223,372,036,854,775,808.
    Number(u64),
    /// One of the signs listed in `specs/Pieces.antt`.
    Sign,
}

/// A token of a driver. Lines count from 1; `at` is the byte of the source at which the token
/// begins, and `len` its length in bytes.
#[derive(Clone, Copy, Debug, PartialEq, Eq)]
pub struct Token {
    pub line: u32,
    pub at: u32,
    pub len: u32,
    pub kind: TokenKind,
}
