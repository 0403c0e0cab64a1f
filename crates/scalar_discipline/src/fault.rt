//! What is wrong with the sides of a program.

ghost use Rattle.std.specs.Prelude.{◌≡◌};
ghost use Rattle.sial_syntax.specs.Shapes.{comes_before};
ghost use Rattle.scalar_discipline.specs.Discipline.{fault_of, seen};
ghost use Rattle.scalar_discipline.specs.Judging.{sooner};

use std::alloc::AllocError;
use thiserror::Error;

/// A rule that is broken, with the text line where it is.
#[derive(Clone, Copy, Debug, PartialEq, Eq, Error)]
pub enum RuleFault {
    /// A pardo stands within another.
    #[error("line {line}: a pardo stands within another")]
    PardoInPardo { line: u32 },
    /// A shared block is written outside of pardos.
    #[error("line {line}: a shared block is written outside of pardos")]
    SharedWriteOutside { line: u32 },
    /// All workers are waited for within a pardo.
    #[error("line {line}: a pardo waits for all workers")]
    SyncInside { line: u32 },
    /// A pardo prints.
    #[error("line {line}: a pardo prints")]
    PrintInside { line: u32 },
    /// A static array is written within a pardo.
    #[error("line {line}: a pardo writes a static array")]
    StaticWriteInside { line: u32 },
    /// A local array is named on both sides.
    #[error("line {line}: a local array is used on both sides")]
    MixedLocal { line: u32 },
    /// A scalar is used on both sides.
    #[error("line {line}: a scalar is used on both sides")]
    MixedScalar { line: u32 },
    /// A partial scalar is read.
    #[error("line {line}: a partial scalar is read")]
    PartialRead { line: u32 },
    /// A call within a procedure leads back to it.
    #[error("line {line}: the call leads back to its procedure")]
    Recursion { line: u32 },
    /// A call leads too deep.
    #[error("line {line}: the call leads too deep")]
    CallTooDeep { line: u32 },
    /// No memory was found.
    #[error("out of memory")]
    OutOfMemory,
}

impl From<AllocError> for RuleFault {
    ghost use Rattle.scalar_discipline.specs.declared.fault.RuleFault.TheVariants.{OutOfMemory};

    ghost from_gives = { λ _ e. e ≡ OutOfMemory };

    fn from(_error: AllocError) -> RuleFault {
        RuleFault::OutOfMemory
    }
}

impl RuleFault {
    // The line of a fault; want of memory has none.
    fn line(self) -> u32
        ensures { result ≡ (fault_of self).line }
    {
        match self {
            RuleFault::PardoInPardo { line }
            | RuleFault::SharedWriteOutside { line }
            | RuleFault::SyncInside { line }
            | RuleFault::PrintInside { line }
            | RuleFault::StaticWriteInside { line }
            | RuleFault::MixedLocal { line }
            | RuleFault::MixedScalar { line }
            | RuleFault::PartialRead { line }
            | RuleFault::Recursion { line }
            | RuleFault::CallTooDeep { line } => line,
            RuleFault::OutOfMemory => 0,
        }
    }

    // The number of the rule, by which faults of one line are told.
    fn rule(self) -> u8
        ensures { result ≡ (fault_of self).rule }
    {
        match self {
            RuleFault::PardoInPardo { .. } => 1,
            RuleFault::SharedWriteOutside { .. } => 2,
            RuleFault::SyncInside { .. } => 3,
            RuleFault::PrintInside { .. } => 4,
            RuleFault::StaticWriteInside { .. } => 5,
            RuleFault::MixedLocal { .. } => 6,
            RuleFault::MixedScalar { .. } => 7,
            RuleFault::PartialRead { .. } => 8,
            RuleFault::Recursion { .. } => 9,
            RuleFault::CallTooDeep { .. } => 10,
            RuleFault::OutOfMemory => 11,
        }
    }

    fn comes_before(self, other: RuleFault) -> bool
        ensures { result ≡ comes_before (fault_of self) (fault_of other) }
    {
        self.line() < other.line() || (self.line() == other.line() && self.rule() < other.rule())
    }
}

/// The earlier of two faults, where there are any.
pub fn sooner(first: Option<RuleFault>, second: Option<RuleFault>) -> Option<RuleFault>
    ensures { seen result ≡ sooner (seen first) (seen second) }
{
    match (first, second) {
        (None, other) => other,
        (Some(fault), None) => Some(fault),
        (Some(fault), Some(other)) if other.comes_before(fault) => Some(other),
        (Some(fault), Some(_)) => Some(fault),
    }
}
