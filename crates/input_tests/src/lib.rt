//! Texts of inputs and of numbers, read or refused, through public calls alone.
#![tactic(auto)]

#[cfg(test)]
mod input_texts;
#[cfg(test)]
mod number_texts;
