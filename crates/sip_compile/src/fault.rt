//! Why a program has no table file.

use sip_grant::Refusal;

/// Why a program wasn't compiled.
#[derive(Drop)]
pub enum CompileFault {
    /// The program is refused.
    Refused(Refusal),
    /// The table's file took not all.
    NotWritten,
    /// No memory was found for the tables.
    OutOfMemory,
}
