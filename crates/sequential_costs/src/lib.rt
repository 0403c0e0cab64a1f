//! What a checker of the epoch rule takes at most: how many steps.
#![tactic(auto)]

mod arithmetic;
mod cutting;
pub mod laws;
mod procedures;
mod reads;
mod statements;
mod steps;
mod words;

pub use steps::sequential_steps;
pub use words::sequential_words;
