//! What is wrong with a text.

ghost use Rattle.std.specs.Prelude.{◌≡◌};

use std::alloc::AllocError;

/// What is wrong at a place of a text.
#[derive(Clone, Copy, Debug, PartialEq, Eq)]
pub enum LexKind {
    /// A byte that belongs to no token here.
    BadByte,
    /// A digit other than `0` after a point.
    Fraction,
    /// A number above 2^64 - 1.
    TooWide,
    /// A text without its closing mark.
    OpenText,
    /// A name of more than 64 bytes, a printed text of more than 1,024, or a whole text of more than 1,048,576.
    TooLong,
    /// No memory was found.
    OutOfMemory,
}

/// The first fault of a text, with its line counted from 1; line 0 where the whole text is too long or no memory was found.
#[derive(Clone, Copy, Debug, PartialEq, Eq)]
pub struct LexFault {
    pub line: u32,
    pub kind: LexKind,
}

impl From<AllocError> for LexFault {
    ghost use Rattle.sial_lexer.specs.declared.fault.LexKind.TheVariants.{OutOfMemory};

    ghost from_gives = { λ _ e. e ≡ record { line = 0; kind = OutOfMemory } };

    fn from(_error: AllocError) -> LexFault {
        LexFault {
            line: 0,
            kind: LexKind::OutOfMemory,
        }
    }
}
