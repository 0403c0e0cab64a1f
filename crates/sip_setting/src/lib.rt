//! What the rules granted: a program, and all that its meaning depends on.
#![tactic(auto)]

mod granted;

pub use granted::Granted;
