//! A program printed as a text that has the same tree.
#![tactic(auto)]

mod declared;
mod line;
mod lists;
mod names;
mod part;
mod print;
mod printer;
mod simple;
mod spelling;
mod statements;

pub use printer::print_program;
