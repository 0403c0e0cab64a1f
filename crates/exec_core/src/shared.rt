//! Shared blocks.

use sial_syntax::Class;

/// A shared block: its class, and its number among all blocks of the class.
#[derive(Clone, Copy)]
pub struct SharedBlock {
    pub class: Class,
    pub block: u32,
}

/// The shared blocks that a statement reads: those that its first and its second operand name.
#[derive(Clone, Copy)]
pub struct Needs {
    pub first: Option<SharedBlock>,
    pub second: Option<SharedBlock>,
}
