//! The epoch rule: which programs are accepted, and the first refusal of the others.
#![tactic(auto)]

pub mod laws;
