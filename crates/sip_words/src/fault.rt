//! Why words are no request.

ghost use Rattle.std.specs.Prelude.{◌≡◌};
ghost use Rattle.sip_words.specs.declared.fault.WordsFault.TheVariants as fault;

use std::alloc::AllocError;

/// Why words are no request.
#[derive(Clone, Copy)]
pub enum WordsFault {
    /// The words aren't accepted.
    Usage,
    /// No memory was found.
    OutOfMemory,
}

impl From<AllocError> for WordsFault {
    ghost from_gives = { λ _ e. e ≡ fault.OutOfMemory };

    fn from(_: AllocError) -> Self {
        WordsFault::OutOfMemory
    }
}
