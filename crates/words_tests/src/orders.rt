//! Options in each order.

use crate::telling::told;
use std::alloc::{AllocError, Global};
use std::test::Fail;

const SETUP: [&str; 6] = [
    " --workers 2",
    " --servers 3",
    " --cache 5",
    " --puts 6",
    " --servercache 7",
    " --place w",
];

const RUN: [&str; 11] = [
    " --workers 2",
    " --servers 3",
    " --cache 5",
    " --puts 6",
    " --servercache 7",
    " --place w",
    " --seed 8",
    " --record r",
    " --store s",
    " --steps 9",
    " --dump",
];

// A command with options in the order of this number, of as many orders as there are.
fn in_order(
    alloc: Global,
    command: &str,
    options: &[&str],
    mut order: usize,
) -> Result<String, AllocError> {
    let mut left = Vec::from_slice(alloc, options)?;
    let mut words = String::from_str(alloc, command)?;
    for _ in 0..options.len() {
        let count = left.len();
        if count == 0 {
            break;
        }
        words.push_str(left.remove(order % count))?;
        order /= count;
    }
    Ok(words)
}

#[test]
fn a_setup_in_each_of_its_720_orders(rt: HostRuntime) -> Result<(), Fail> {
    let alloc = rt.alloc();
    for order in 0..720 {
        let dry = in_order(alloc, "dryrun p i", SETUP.as_slice(), order)?;
        assert_eq!(rt;
            told(alloc, dry.as_str())?.as_str(),
            "dryrun p i 2 3 5 6 7 w"
        );
        let replay = in_order(alloc, "replay p i r", SETUP.as_slice(), order)?;
        assert_eq!(rt;
            told(alloc, replay.as_str())?.as_str(),
            "replay p i r 2 3 5 6 7 w"
        );
    }
    Ok(())
}

#[test]
fn the_options_of_a_run_in_many_orders(rt: HostRuntime) -> Result<(), Fail> {
    let alloc = rt.alloc();
    for step in 0..400 {
        let words = in_order(alloc, "run p i", RUN.as_slice(), step * 99_767)?;
        assert_eq!(rt;
            told(alloc, words.as_str())?.as_str(),
            "run p i 2 3 5 6 7 w seed 8 r s 9 true"
        );
    }
    Ok(())
}
