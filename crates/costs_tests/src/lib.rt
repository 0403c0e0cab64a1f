//! Tests of what a checker of the epoch rule takes, on programs whose steps and words were counted by hand.
#![tactic(auto)]

#[cfg(test)]
mod granting;
#[cfg(test)]
mod steps;
#[cfg(test)]
mod words;
