//! Why a statement can't go on.

/// What a statement found missing, or there already.
#[derive(Clone, Copy, Debug, PartialEq, Eq)]
pub enum TrapKind {
    /// A temp doesn't hold the named block.
    UnsetBlock,
    /// A private scalar has no value.
    UnsetScalar,
    /// A distributed array isn't created.
    NotCreated,
    /// A distributed array is created already.
    AlreadyCreated,
    /// A local block isn't allocated.
    LocalMissing,
    /// A local block is allocated already.
    LocalTwice,
}

/// A trap, with the text line of its statement.
#[derive(Clone, Copy, Debug, PartialEq, Eq)]
pub struct Trap {
    pub kind: TrapKind,
    pub line: u32,
}
