//! The segments of all kinds that an input gives.

use crate::cuts::Cuts;

/// The segments of the four kinds that an input gives.
#[derive(Drop)]
pub struct Kinds {
    pub ao: Cuts,
    pub mo: Cuts,
    pub moa: Cuts,
    pub mob: Cuts,
}
