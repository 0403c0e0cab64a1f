//! Tokens.

/// What a token is.
#[derive(Clone, Copy, Debug, PartialEq, Eq)]
pub enum TokenKind {
    /// A name or a reserved word.
    Name,
    /// A number.
    Number { value: u64 },
    /// A text with both its marks.
    Quoted,
    /// A sign.
    Sign,
    /// The first line end after a token, or the end of the text after one.
    LineEnd,
}

/// A token and where it stands: its bytes are those of the source from `start` to `end`.
#[derive(Clone, Copy, Debug, PartialEq, Eq)]
pub struct Token {
    pub kind: TokenKind,
    pub start: u32,
    pub end: u32,
    /// The line on which it begins, counted from 1.
    pub line: u32,
}
