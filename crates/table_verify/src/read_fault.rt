//! Why nothing is read from tables.

ghost use Rattle.std.specs.Prelude.{◌≡◌};
ghost use Rattle.table_verify.specs.declared.read_fault.ReadFault.TheVariants as fault;

use sip_files::OutOfMemory;
use std::alloc::{AllocError, AllocFailed};

/// What a reader answers where it gives nothing.
#[derive(Clone, Copy)]
pub enum ReadFault {
    /// What comes next is not what a program has there.
    NotAProgram,
    /// Memory ran out.
    OutOfMemory,
}

impl From<AllocError> for ReadFault {
    ghost from_gives = { λ _ e. e ≡ fault.OutOfMemory };

    fn from(_: AllocError) -> Self {
        ReadFault::OutOfMemory
    }
}

impl<T: Drop> From<AllocFailed<T>> for ReadFault {
    ghost from_gives = { λ _ e. e ≡ fault.OutOfMemory };

    fn from(_: AllocFailed<T>) -> Self {
        ReadFault::OutOfMemory
    }
}

impl From<OutOfMemory> for ReadFault {
    ghost from_gives = { λ _ e. e ≡ fault.OutOfMemory };

    fn from(_: OutOfMemory) -> Self {
        ReadFault::OutOfMemory
    }
}
