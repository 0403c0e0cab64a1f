//! Tests of one worker's parts over tables, beside values that were worked out apart from them.
#![tactic(auto)]

#[cfg(test)]
mod assignments;
#[cfg(test)]
mod numbers;
