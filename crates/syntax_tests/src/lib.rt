//! Tests of what programs are made of, by public calls.
#![tactic(auto)]

#[cfg(test)]
mod texts;
