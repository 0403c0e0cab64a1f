//! What a name is declared as.

/// What a name is declared as, with its number among those of its kind.
#[derive(Clone, Copy)]
pub enum Thing {
    Index(u16),
    Array(u16),
    Scalar(u16),
    Proc(u16),
}
