//! Tests of the kernels by their public calls, beside values that were worked out apart from them.
#![tactic(auto)]

#[cfg(test)]
mod blocks;
#[cfg(test)]
mod contractions;
#[cfg(test)]
mod digests;
#[cfg(test)]
mod elements;
#[cfg(test)]
mod numbers;
#[cfg(test)]
mod ranks;
#[cfg(test)]
mod splits;
