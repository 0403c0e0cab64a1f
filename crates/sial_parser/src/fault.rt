//! What is wrong with a program's text.

ghost use Rattle.std.specs.Prelude.{◌≡◌};

use sial_lexer::LexFault;
use std::alloc::{AllocError, AllocFailed};

/// What there is too many of.
#[derive(Clone, Copy, Debug, PartialEq, Eq)]
pub enum Counted {
    Indices,
    Arrays,
    Scalars,
    Procs,
    Statements,
    /// Names of a block, a declaration, a slot list or a pardo.
    Names,
}

/// The first fault of a program's text, with its line counted from 1.
#[derive(Clone, Copy, Debug, PartialEq, Eq)]
pub enum ParseFault {
    Lex(LexFault),
    /// No program begins with the tokens up to this one.
    Expected { line: u32 },
    /// A name isn't declared as what its place asks.
    Undeclared { line: u32 },
    /// A name is declared already.
    Twice { line: u32 },
    /// A name after an end word isn't its opener's.
    EndName { line: u32 },
    TooMany { line: u32, which: Counted },
    /// More than 32 of `do`, `pardo` and `if` stand within each other.
    TooDeep { line: u32 },
    OutOfMemory,
}

impl From<AllocError> for ParseFault {
    ghost use Rattle.sial_parser.specs.declared.fault.ParseFault.TheVariants.{OutOfMemory};

    ghost from_gives = { λ _ e. e ≡ OutOfMemory };

    fn from(_error: AllocError) -> ParseFault {
        ParseFault::OutOfMemory
    }
}

impl<T: Drop> From<AllocFailed<T>> for ParseFault {
    ghost use Rattle.sial_parser.specs.declared.fault.ParseFault.TheVariants.{OutOfMemory};

    ghost from_gives = { λ _ e. e ≡ OutOfMemory };

    fn from(_failed: AllocFailed<T>) -> ParseFault {
        ParseFault::OutOfMemory
    }
}
