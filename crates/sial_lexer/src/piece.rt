//! The pieces that a text is cut into.

use crate::token::TokenKind;

/// What a piece is: a token, or what stands between tokens.
#[derive(Clone, Copy)]
pub enum PieceKind {
    /// A space or a tab.
    Blank,
    /// From `#` up to the end of the line.
    Comment,
    /// A line feed, with the carriage return before it if there is one.
    LineBreak,
    Token(TokenKind),
}

/// A piece at the front of a text, and how many bytes it has.
#[derive(Clone, Copy)]
pub struct Piece {
    pub kind: PieceKind,
    pub len: usize,
}
