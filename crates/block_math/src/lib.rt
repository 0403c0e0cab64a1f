//! Element loops over blocks of numbers modulo 2^64.
#![tactic(auto)]

mod pairs;
mod sums;
mod uniform;

pub use pairs::{add, greatest, subtract};
pub use sums::{all_equal, dot};
pub use uniform::{fill, scale};
