//! The tree of a program's text, or its first fault.
#![tactic(auto)]

mod bodies;
mod declarations;
mod ends;
mod fault;
mod keyword;
pub mod laws;
mod lists;
mod operands;
mod parser;
mod program;
mod reading;
mod scope;
mod sign;
mod simple;
mod spelling;
mod thing;
mod word;
mod words;

pub use fault::{Counted, ParseFault};
pub use keyword::Keyword;
pub use parser::parse;
pub use sign::Sign;
pub use thing::Thing;
pub use word::{Symbol, Word};
