//! Where the blocks of served arrays are kept.
#![tactic(auto)]

mod memory_store;
mod store;

pub use memory_store::MemoryStore;
pub use store::Store;
