//! The side rules of a program: so far how deep its procedures call, and whether a call leads back.
#![tactic(auto)]

mod call;
mod classing;
mod deeds;
mod depths;
mod distinct;
mod fault;
mod handing;
mod judging;
mod mixing;
mod parts;
mod placed;
mod reaching;
mod rounds;
mod standing;

pub use classing::{classes, classify};
pub use depths::call_depths;
pub use fault::RuleFault;
