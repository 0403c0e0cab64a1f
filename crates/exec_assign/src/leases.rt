//! Leases of shared blocks.

use block_pool::Cached;

/// The leases of the shared blocks that a right side names, by its operands.
#[derive(Clone, Copy)]
pub struct Leases<'a> {
    pub first: Option<&'a Cached>,
    pub second: Option<&'a Cached>,
}
