//! The words of an input.

use sial_syntax::Text;

/// A word of a line.
#[derive(Drop)]
pub enum Word {
    /// A name, in small letters.
    Name(Text),
    /// A number; none where it is above 2^64 - 1.
    Number(Option<u64>),
    /// The sign `=`.
    Equals,
    /// The sign `-`.
    Minus,
}

/// A word at the front of a line, or what stands between words, and how many bytes it has.
#[derive(Drop)]
pub struct Part {
    pub word: Option<Word>,
    pub len: usize,
}
