//! From the names of two files to a program that the rules grant, or the first reason against it.
#![tactic(auto)]

mod fitted;
mod granted;
mod reading;
mod refusal;
mod ruled;
mod text;

pub use granted::{load_granted, load_program};
pub use refusal::{Refusal, SyntaxFault};
pub use ruled::Ruled;
