//! The cursor of one worker: the instruction that comes next, the numbers of the indices, calls and loops in progress.
#![tactic(auto)]

mod calls;
mod control;
mod loops;
mod numbers;
mod pardo;
mod wheres;

pub use control::Control;
