//! Conditions of `if` and `where`.

/// One side of a comparison.
#[derive(Clone, Copy, PartialEq, Eq)]
pub enum Value {
    Number(u64),
    Scalar(u16),
    /// The segment or piece number that an index has.
    Index(u16),
}

/// A comparison of unsigned numbers.
#[derive(Clone, Copy, PartialEq, Eq)]
pub enum Test {
    Less,
    LessEqual,
    Greater,
    GreaterEqual,
    Equal,
    NotEqual,
}

/// Two values and how they are compared.
#[derive(Clone, Copy, PartialEq, Eq)]
pub struct Cond {
    pub left: Value,
    pub test: Test,
    pub right: Value,
}
