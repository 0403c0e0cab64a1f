//! What the grammar sees of a token.

use crate::keyword::Keyword;
use crate::sign::Sign;
use sial_syntax::Text;

/// What a token says.
#[derive(Drop)]
pub enum Symbol {
    /// A reserved word.
    Key(Keyword),
    Sign(Sign),
    /// A name, in small letters.
    Name(Text),
    Number(u64),
    /// What stands between the marks of a text.
    Quoted(Text),
    LineEnd,
    /// The end of the text.
    End,
}

/// A token and its line, counted from 1.
#[derive(Drop)]
pub struct Word {
    pub line: u32,
    pub symbol: Symbol,
}
