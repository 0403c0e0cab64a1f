//! Assignments of one worker.
#![tactic(auto)]

mod blocks;
mod computing;
mod elements;
mod extents;
mod leases;
mod numbers;
mod parts;
mod reading;
mod writing;

pub use blocks::assign_block;
pub use computing::compute_integrals;
pub use leases::Leases;
pub use numbers::assign_scalar;
