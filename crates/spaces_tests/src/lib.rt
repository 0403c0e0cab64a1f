//! Spaces and start values that inputs give, or what they are refused for, through public calls alone.
#![tactic(auto)]

#[cfg(test)]
mod answers;
#[cfg(test)]
mod resolved;
#[cfg(test)]
mod segments;
#[cfg(test)]
mod space_faults;
#[cfg(test)]
mod start_faults;
#[cfg(test)]
mod texts;
