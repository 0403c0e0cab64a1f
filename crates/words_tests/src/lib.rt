//! Tests of the reader of words: tables of words and what they ask for.
#![tactic(auto)]

#[cfg(test)]
mod commands;
#[cfg(test)]
mod limits;
#[cfg(test)]
mod orders;
#[cfg(test)]
mod other;
#[cfg(test)]
mod telling;
