//! The kinds of call that files answer.

/// A kind of call; files count their faults for each.
#[derive(Clone, Copy)]
pub enum Call {
    Load,
    Clear,
    Append,
    ReadAt,
    WriteAt,
}
