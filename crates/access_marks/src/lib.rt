//! Marks on shared blocks: the first access of an epoch, and whether the next may stand beside it.
#![tactic(auto)]

mod marks;

pub use marks::Marks;
