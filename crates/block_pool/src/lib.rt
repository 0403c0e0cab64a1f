//! Block memory in slots under leases.
#![tactic(auto)]

mod class;
mod copies;
mod how;
mod lease;
mod lifted;
mod mix;
mod out_of_memory;
mod pool;
mod rows;
mod runs;
mod slots;
mod state;

pub use class::{CLASSES, LAST_CLASS};
pub use copies::{copy_between, copy_front};
pub use how::How;
pub use lease::{Awaiting, Cached, Owned, Sending};
pub use lifted::Lifted;
pub use out_of_memory::OutOfMemory;
pub use pool::Pool;
pub use state::State;
