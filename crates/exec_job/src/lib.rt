//! What one worker runs: a granted program with its tables, and what an input gives it.
#![tactic(auto)]

mod job;

pub use job::Job;
