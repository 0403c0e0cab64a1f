//! What the side rules find out about scalars and local arrays.

/// How the workers' copies of a scalar relate.
#[derive(Clone, Copy, PartialEq, Eq)]
pub enum ScalarClass {
    /// All workers have the same number.
    Replicated,
    /// Each worker has a number of its own, within one iteration.
    Private,
    /// Each worker adds into its own copy; the scalar is their sum.
    Partial,
}

/// On which side of the pardos an array is used.
#[derive(Clone, Copy, PartialEq, Eq)]
pub enum Side {
    /// Outside every pardo.
    Outer,
    /// Within pardos.
    Inner,
    /// Nowhere.
    Unused,
}

/// One class for each scalar and one side for each array, in order of declaration.
#[derive(PartialEq, Drop)]
pub struct Classes {
    pub scalars: Vec<ScalarClass>,
    pub locals: Vec<Side>,
}
