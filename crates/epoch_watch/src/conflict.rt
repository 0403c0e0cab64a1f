//! An access that is refused, with where it is.

use sial_meaning::Clash;
use sial_syntax::Class;

/// An access that may not stand together with an earlier one, its block and the epoch of its class.
#[derive(Clone, Copy, Debug, PartialEq, Eq)]
pub struct Conflict {
    pub class: Class,
    /// The block's number among all of its class.
    pub block: u32,
    /// Counted from 1.
    pub epoch: u64,
    pub clash: Clash,
}
