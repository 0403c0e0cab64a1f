//! The tables of a program: flat code that workers step, and what its numbers name.
#![tactic(auto)]

mod array;
mod index;
mod indices;
mod instruction;
pub mod laws;
mod procedure;
mod slots;
mod tables;

pub use array::ArrayEntry;
pub use index::{BoundEntry, IndexEntry, RangeEntry};
pub use indices::Indices;
pub use instruction::{Instruction, Operation};
pub use procedure::ProcedureEntry;
pub use slots::Slots;
pub use tables::Tables;
