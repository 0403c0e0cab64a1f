//! What a worker holds of its own blocks, in slots of a pool.
#![tactic(auto)]

mod allocating;
mod beginning;
mod blocks;
mod clearing;
mod deallocating;
mod ending;
mod finding;
mod fixed;
mod lengths;
mod locals;
mod opening;
mod putting;
mod reading;
mod replacing;

pub use blocks::Blocks;
