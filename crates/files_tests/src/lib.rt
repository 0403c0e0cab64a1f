//! Tests of files and sinks by their public calls: in memory, of the host, and over streams that give and take in pieces.
#![tactic(auto)]

#[cfg(test)]
mod host;
#[cfg(test)]
mod memory;
#[cfg(test)]
mod pieces;
#[cfg(test)]
mod streams;
#[cfg(test)]
mod writing;
