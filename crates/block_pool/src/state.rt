//! What a slot is used for.

/// The state of a slot: free, or named by a lease of one kind.
#[derive(Clone, Copy, Debug, Default, PartialEq, Eq)]
pub enum State {
    #[default]
    Free,
    Owned,
    Awaiting,
    Cached,
    Sending,
    Lifted,
}
