//! All that the program does: from its words and files to its output and status.
#![tactic(auto)]

mod answer;
mod compiling;
mod kinds;
mod lines;
mod perform;
mod refuse;
mod running;
mod say;
mod status;
mod top;
mod words;

pub use status::Status;
pub use top::sip;
