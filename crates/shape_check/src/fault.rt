//! What is wrong with the shape of a program.

ghost use Rattle.std.specs.Prelude.{◌≡◌};
ghost use Rattle.sial_syntax.specs.Shapes.{comes_before};
ghost use Rattle.shape_check.specs.Refused.{fault_of, seen};
ghost use Rattle.shape_check.specs.Walk.{sooner};

use std::alloc::AllocError;
use thiserror::Error;

/// A rule that is broken, with the text line where it is; the rules in the order in which they are told on one line.
#[derive(Clone, Copy, Debug, PartialEq, Eq, Error)]
pub enum ShapeFault {
    /// An index is used that isn't bound there.
    #[error("line {line}: an index is not bound")]
    Unbound { line: u32 },
    /// A bound index is bound again.
    #[error("line {line}: an index is bound twice")]
    Rebound { line: u32 },
    /// An index stands twice in one block or slot list.
    #[error("line {line}: an index stands twice")]
    Repeated { line: u32 },
    /// An index, an array or an operand is of a kind that may not stand there.
    #[error("line {line}: the kind does not fit")]
    WrongKind { line: u32 },
    /// The rank isn't the declared one, or the indices of a form don't agree.
    #[error("line {line}: the indices do not agree")]
    WrongIndices { line: u32 },
    /// A distributed or served array is written as if it were the worker's own.
    #[error("line {line}: the array can't be assigned")]
    NotWritable { line: u32 },
    /// No memory was found.
    #[error("out of memory")]
    OutOfMemory,
}

impl ShapeFault {
    // the line of a fault; want of memory has none
    fn line(self) -> u32
        ensures { result ≡ (fault_of self).line }
    {
        match self {
            ShapeFault::Unbound { line }
            | ShapeFault::Rebound { line }
            | ShapeFault::Repeated { line }
            | ShapeFault::WrongKind { line }
            | ShapeFault::WrongIndices { line }
            | ShapeFault::NotWritable { line } => line,
            ShapeFault::OutOfMemory => 0,
        }
    }

    // the number of the rule, by which faults of one line are told
    fn rule(self) -> u8
        ensures { result ≡ (fault_of self).rule }
    {
        match self {
            ShapeFault::Unbound { .. } => 1,
            ShapeFault::Rebound { .. } => 2,
            ShapeFault::Repeated { .. } => 3,
            ShapeFault::WrongKind { .. } => 4,
            ShapeFault::WrongIndices { .. } => 5,
            ShapeFault::NotWritable { .. } => 6,
            ShapeFault::OutOfMemory => 7,
        }
    }

    fn comes_before(self, other: ShapeFault) -> bool
        ensures { result ≡ comes_before (fault_of self) (fault_of other) }
    {
        self.line() < other.line() || (self.line() == other.line() && self.rule() < other.rule())
    }
}

/// The earlier of two faults, where there are any.
pub fn sooner(first: Option<ShapeFault>, second: Option<ShapeFault>) -> Option<ShapeFault>
    ensures { seen result ≡ sooner (seen first) (seen second) }
{
    match (first, second) {
        (None, other) => other,
        (Some(fault), None) => Some(fault),
        (Some(fault), Some(other)) if other.comes_before(fault) => Some(other),
        (Some(fault), Some(_)) => Some(fault),
    }
}

impl From<AllocError> for ShapeFault {
    ghost use Rattle.shape_check.specs.declared.fault.ShapeFault.TheVariants.{OutOfMemory};

    ghost from_gives = { λ _ e. e ≡ OutOfMemory };

    fn from(_error: AllocError) -> ShapeFault {
        ShapeFault::OutOfMemory
    }
}
