//! Why bytes are no table file.

ghost use Rattle.std.specs.Prelude.{◌≡◌};
ghost use Rattle.table_file.specs.declared.fault.TableFault.TheVariants as fault;

use std::alloc::{AllocError, AllocFailed};

/// The first fault of some bytes; `at` is a place, counted in bytes from 0.
#[derive(Clone, Copy, Debug, PartialEq, Eq)]
pub enum TableFault {
    /// The first four bytes are not `SIPT`.
    Magic,
    /// The version is neither 1 nor 2.
    Version,
    /// The next field isn't whole; `at` is how many bytes there are.
    Short { at: u64 },
    /// A field has no value that it may have.
    Field { at: u64 },
    /// Bytes stand behind the last list.
    Rest { at: u64 },
    /// A count or a length is above its limit, or a statement is one too many.
    TooMany { at: u64 },
    /// Memory ran out.
    OutOfMemory,
}

impl From<AllocError> for TableFault {
    ghost from_gives = { λ _ e. e ≡ fault.OutOfMemory };

    fn from(_: AllocError) -> Self {
        TableFault::OutOfMemory
    }
}

impl<T: Drop> From<AllocFailed<T>> for TableFault {
    ghost from_gives = { λ _ e. e ≡ fault.OutOfMemory };

    fn from(_: AllocFailed<T>) -> Self {
        TableFault::OutOfMemory
    }
}
