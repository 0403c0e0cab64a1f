//! Which shared blocks a worker has at hand, in the order of their last use.
#![tactic(auto)]

mod cache;
mod found;

pub use cache::Cache;
pub use found::Found;
