//! The blocks of all distributed and served arrays, where one worker holds them all.
#![tactic(auto)]

mod blocks;
mod creating;
pub mod laws;
mod lengths;
mod meeting;
mod numbers;
mod opening;
mod putting;
mod starting;

pub use blocks::SharedBlocks;
