//! Why a run ends early.

ghost use Rattle.std.specs.Prelude.{◌≡◌};
ghost use Rattle.first_profile.specs.declared.fault.RunFault.TheVariants as run;

use sip_files::Failed;
use std::alloc::AllocError;

/// Why a run didn't come to its end.
#[derive(Clone, Copy)]
pub enum RunFault {
    /// The output took not all.
    NotWritten,
    /// No memory was found.
    OutOfMemory,
}

impl From<AllocError> for RunFault {
    ghost from_gives = { λ _ e. e ≡ run.OutOfMemory };

    fn from(_: AllocError) -> Self {
        RunFault::OutOfMemory
    }
}

impl From<Failed> for RunFault {
    ghost from_gives = { λ _ e. e ≡ run.NotWritten };

    fn from(_: Failed) -> Self {
        RunFault::NotWritten
    }
}
