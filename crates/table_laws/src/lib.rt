//! What holds of programs, their tables and their files together: laws, with nothing to run.
#![tactic(auto)]

pub mod laws;
