//! What a program's code has at each place of the rest of its work: definitions and laws, with nothing to run.
#![tactic(auto)]

pub mod laws;
