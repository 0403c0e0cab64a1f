//! What the words of a call ask for.
#![tactic(auto)]

mod command;
mod count;
mod fault;
mod granted;
mod laws;
mod limits;
mod line;
mod number;
mod plain;
mod request;
mod setting;
mod words;

pub use fault::WordsFault;
pub use laws::order_does_not_matter;
pub use request::{Choices, Request, Running, Setup};
pub use words::read_words;
