//! With a word, times calls of the kernels: for each a line with its case, its name, nanoseconds and a checksum.
#![tactic(auto)]

mod blocks;
mod contractions;
mod elements;
mod parts;
mod permutations;
mod report;

use std::{env, io};

fn main(rt: HostRuntime) -> io::Result<()> {
    // Without a word nothing is timed, so that the gate's run of this program says nothing of speed.
    if env::args(&rt)?.count() > 1 {
        time(&rt)?;
    }
    Ok(())
}

fn time(rt: &HostRuntime) -> io::Result<()> {
    contractions::time(rt)?;
    permutations::time(rt)?;
    parts::time(rt)?;
    elements::time(rt)
}
