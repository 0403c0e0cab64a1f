//! Inputs and lists of numbers, read from their texts.
#![tactic(auto)]

mod block_lines;
mod building;
mod fault;
mod figures;
mod has;
mod keyword;
mod lines;
mod number_text;
mod numbers;
mod part;
mod pushing;
mod reading;
mod said;
mod saying;
mod scalar_lines;
mod values;
mod word;
mod words;

pub use fault::InputFault;
pub use number_text::read_numbers;
pub use reading::read_input;
