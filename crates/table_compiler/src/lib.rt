//! The tables of a program: entries of what it declares, its texts, and flat code.
#![tactic(auto)]

mod compiler;
mod copies;
mod declared;
mod entries;
mod flat;
mod numbers;
mod operations;
mod sizes;
mod statements;

pub use compiler::compile;
