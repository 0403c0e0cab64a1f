//! What is wrong with an input.

ghost use Rattle.std.specs.Prelude.{◌≡◌};

use std::alloc::AllocError;

/// The first fault of a text, with its line counted from 1.
#[derive(Clone, Copy, Debug, PartialEq, Eq)]
pub enum InputFault {
    /// The line says nothing of what an input may say, or has a length or a segment number out of its range.
    BadLine { line: u32 },
    /// A constant, a start value or an element above 2^64 - 1.
    TooWide { line: u32 },
    /// A second line for one constant, kind, scalar or block.
    Twice { line: u32 },
    /// Past a limit: 256 constants, 4,096 segments of a kind, 65,536 blocks.
    TooMany { line: u32 },
    /// No memory was found.
    OutOfMemory,
}

impl From<AllocError> for InputFault {
    ghost use Rattle.input_text.specs.declared.fault.InputFault.TheVariants.{OutOfMemory};

    ghost from_gives = { λ _ e. e ≡ OutOfMemory };

    fn from(_error: AllocError) -> InputFault {
        InputFault::OutOfMemory
    }
}

/// What is wrong with a line, after the lines before it.
#[derive(Clone, Copy)]
pub enum Wrong {
    BadLine,
    TooWide,
    Twice,
    TooMany,
}
