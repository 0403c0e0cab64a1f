//! The first fault of a program's text.
#![tactic(auto)]

pub mod laws;
