//! The numbers that one worker has for scalars, and the conditions that they decide.
#![tactic(auto)]

mod assigning;
mod conditions;
mod scalars;

pub use scalars::Scalars;
