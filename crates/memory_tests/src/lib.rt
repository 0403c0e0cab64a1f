//! Tests of block memory by its public calls: pools, the cache's order, marks, stores and messages in flight.
#![tactic(auto)]

#[cfg(test)]
mod cache;
#[cfg(test)]
mod marks;
#[cfg(test)]
mod net;
#[cfg(test)]
mod pool;
#[cfg(test)]
mod store;
#[cfg(test)]
mod worker;
