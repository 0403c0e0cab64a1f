//! What a call came to.

use sip_grant::Refusal;

/// How a call ended, before its line is told and its status given.
#[derive(Drop)]
pub enum Answer {
    /// The program ran to its end.
    Done,
    /// No program was granted.
    Refused(Refusal),
    /// The program isn't of the first profile.
    NotFirst,
    /// The output took not all.
    NotWritten,
    /// No memory was found as the program ran.
    OutOfMemory,
}
