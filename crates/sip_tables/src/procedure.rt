//! Entries of procedures.

/// A procedure's name and where its code begins.
#[derive(Clone, Copy)]
pub struct ProcedureEntry {
    /// The number of its name among the texts.
    pub text: u32,
    /// The number of its first instruction.
    pub entry: u32,
}
