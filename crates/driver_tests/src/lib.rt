//! Tests of the top call over files and sinks in memory: its statuses, its lines and what it wrote.
#![tactic(auto)]

#[cfg(test)]
mod calls;
#[cfg(test)]
mod compiles;
#[cfg(test)]
mod files;
#[cfg(test)]
mod inputs;
#[cfg(test)]
mod rules;
#[cfg(test)]
mod runs;
#[cfg(test)]
mod tables;
#[cfg(test)]
mod texts;
