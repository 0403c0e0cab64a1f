//! What calls of the outside answer where they don't succeed.

ghost use Rattle.std.specs.Prelude.{◌≡◌};
ghost use Rattle.sip_files.specs.declared.fault.LoadFault.TheVariants as load;

use std::alloc::{AllocError, AllocFailed};

/// A call of the outside failed, and its object counted that.
#[derive(Clone, Copy, Debug, PartialEq, Eq)]
pub struct Failed;

/// Memory ran out.
#[derive(Clone, Copy, Debug)]
pub struct OutOfMemory;

/// Why a file wasn't loaded.
#[derive(Clone, Copy, Debug, PartialEq, Eq)]
pub enum LoadFault {
    /// Files counted a fault.
    Failed,
    /// There is no file of this name.
    Missing,
    /// The file has more bytes than the limit.
    TooLong,
    /// Memory ran out.
    OutOfMemory,
}

impl From<AllocError> for OutOfMemory {
    fn from(_: AllocError) -> Self {
        OutOfMemory
    }
}

impl<T: Drop> From<AllocFailed<T>> for OutOfMemory {
    fn from(_: AllocFailed<T>) -> Self {
        OutOfMemory
    }
}

impl From<AllocError> for LoadFault {
    ghost from_gives = { λ _ e. e ≡ load.OutOfMemory };

    fn from(_: AllocError) -> Self {
        LoadFault::OutOfMemory
    }
}
