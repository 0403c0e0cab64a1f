//! Tables and their files, through public calls alone.
#![tactic(auto)]

#[cfg(test)]
mod changed;
#[cfg(test)]
mod compiled;
#[cfg(test)]
mod faults;
#[cfg(test)]
mod files;
#[cfg(test)]
mod refused;
#[cfg(test)]
mod small;
#[cfg(test)]
mod verified;
#[cfg(test)]
mod worked;
