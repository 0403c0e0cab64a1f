//! Why tables give no program.

ghost use Rattle.std.specs.Prelude.{◌≡◌};
ghost use Rattle.table_verify.specs.FirstFaults as spec;

use thiserror::Error;

/// What is first wrong with tables: by instruction, and at one instruction in this order. Instructions are numbered from 0 on.
#[derive(Clone, Copy, Debug, PartialEq, Eq, Error)]
pub enum VerifyFault {
    /// Up to the one before it, lines and nesting are those of a program that has as many procedures, but not with this instruction; where the
    /// code ends too early, it is their number.
    #[error("instruction {instruction}: no program nests so")]
    Nest { instruction: u32 },
    /// The instruction leads elsewhere than lines and nesting tell; procedures' entries count as instruction 0.
    #[error("instruction {instruction}: it leads elsewhere than its program")]
    Target { instruction: u32 },
    /// The instruction names a thing or a text that isn't there; what is declared, and how many texts and statements there are, counts as
    /// instruction 0.
    #[error("instruction {instruction}: it names what isn't there")]
    Id { instruction: u32 },
    /// Memory ran out, or the first fault has a number of more than 32 bits.
    #[error("out of memory")]
    OutOfMemory,
}

impl VerifyFault {
    // The instruction of a fault; want of memory has none.
    fn instruction(self) -> u32
        ensures { result ≡ spec.instruction self }
    {
        match self {
            VerifyFault::Nest { instruction }
            | VerifyFault::Target { instruction }
            | VerifyFault::Id { instruction } => instruction,
            VerifyFault::OutOfMemory => 0,
        }
    }
}

/// The earlier of two faults, where there are any; of two at one instruction, the first.
pub fn earlier(first: Option<VerifyFault>, second: Option<VerifyFault>) -> Option<VerifyFault>
    ensures { result ≡ spec.earlier first second }
{
    match (first, second) {
        (None, other) => other,
        (Some(fault), None) => Some(fault),
        (Some(fault), Some(other)) if other.instruction() < fault.instruction() => Some(other),
        (Some(fault), Some(_)) => Some(fault),
    }
}
