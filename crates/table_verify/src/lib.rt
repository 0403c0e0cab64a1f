//! Programs out of their tables: whether six lists are the tables of a program, and of which.
#![tactic(auto)]

mod closings;
mod copies;
mod declared;
mod fault;
mod first;
mod jump;
mod jumping;
mod names;
mod nest;
mod nesting;
mod numbering;
mod opener;
mod parts;
mod passing;
mod proper;
mod read_fault;
mod rest;
mod simple;
mod starting;
mod statements;
mod targets;
mod things;
mod verifier;

pub use fault::VerifyFault;
pub use first::first_fault;
pub use nesting::nesting_fault;
pub use numbering::number_fault;
pub use targets::target_fault;
pub use verifier::unflatten;
