//! The message machine: workers, the homes of their distributed blocks, servers and a master, and the messages between them.
#![tactic(auto)]

mod counts;
mod entry;
pub mod laws;
mod message;
mod numbers;
mod options;

pub use counts::Counts;
pub use entry::Entry;
pub use message::{Body, Given, Message, Origin};
pub use numbers::Numbers;
pub use options::Options;
