//! Worked programs with their text, run by the definitions.
#![tactic(auto)]

pub mod faults;
pub mod features;
pub mod programs;
