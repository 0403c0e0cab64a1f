//! How words meet those of a slot.

/// What becomes of a word where another one comes.
#[derive(Clone, Copy, Debug, PartialEq, Eq)]
pub enum How {
    Set,
    Add,
    Greatest,
}
