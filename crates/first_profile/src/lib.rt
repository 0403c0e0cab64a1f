//! The small evaluator: programs of the first profile, run as the sequential meaning has it.
#![tactic(auto)]

mod assign;
mod blocks;
mod evaluator;
mod fault;
mod laws;
mod machine;
mod print;
mod profile;
mod start;
mod statements;

pub use evaluator::run;
pub use fault::RunFault;
pub use laws::{first_programs_have_no_trap, granted_programs_are_ready, granted_trees_run};
pub use profile::is_first_tree;
