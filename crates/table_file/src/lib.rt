//! The file of a program's tables, written and read.
#![tactic(auto)]

mod combined;
mod control;
mod declared;
mod entries;
mod entry;
mod fault;
mod fields;
mod heads;
mod instructions;
mod listed;
mod names;
mod numbers;
mod opcode;
mod operands;
mod parts;
mod reading;
mod rows;
mod simple;
mod version;
mod writing;

pub use fault::TableFault;
pub use reading::decode;
pub use writing::encode;
