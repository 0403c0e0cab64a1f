//! Permuted copies, slices and insertions of blocks, for every rank from 1 to 6.
#![tactic(auto)]

mod any;
mod axis;
mod gathering;
mod how;
mod inserting;
pub mod laws;
mod part;
mod permuting;
mod rows;
mod slicing;
mod strided;
mod strides;

pub use any::{permute_any, put_in_any, slice_out_any};
pub use gathering::gather;
pub use how::How;
pub use inserting::put_in;
pub use permuting::permute;
pub use slicing::slice_out;
