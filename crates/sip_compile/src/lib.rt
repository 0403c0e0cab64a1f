//! From a program's file to the file of its tables.
#![tactic(auto)]

mod compiling;
mod fault;
mod filing;

pub use compiling::compile_program;
pub use fault::CompileFault;
