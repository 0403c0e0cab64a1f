//! Blocks by place, each in a slot of a pool.
#![tactic(auto)]

mod putting;
mod seats;

pub use seats::Seats;
