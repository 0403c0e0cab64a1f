//! Numbers and names at their limits, and past them.

use crate::telling::told;
use std::test::Fail;

#[test]
fn numbers_at_their_limits(rt: HostRuntime) -> Result<(), Fail> {
    let table = [
        ("dryrun p i --workers 1", "dryrun p i 1 1 16 4 16 -"),
        ("dryrun p i --workers 32", "dryrun p i 32 1 16 4 16 -"),
        ("dryrun p i --servers 1", "dryrun p i 1 1 16 4 16 -"),
        ("dryrun p i --servers 8", "dryrun p i 1 8 16 4 16 -"),
        ("dryrun p i --cache 2", "dryrun p i 1 1 2 4 16 -"),
        ("dryrun p i --cache 64", "dryrun p i 1 1 64 4 16 -"),
        ("dryrun p i --puts 1", "dryrun p i 1 1 16 1 16 -"),
        ("dryrun p i --puts 16", "dryrun p i 1 1 16 16 16 -"),
        ("dryrun p i --servercache 1", "dryrun p i 1 1 16 4 1 -"),
        ("dryrun p i --servercache 64", "dryrun p i 1 1 16 4 64 -"),
        (
            "run p i --seed 0 --steps 0",
            "run p i 1 1 16 4 16 - seed 0 run.rec - 0 false",
        ),
        (
            "run p i --seed 18446744073709551615 --steps 18446744073709551615",
            "run p i 1 1 16 4 16 - seed 18446744073709551615 run.rec - 18446744073709551615 false",
        ),
        ("demo 0", "demo 0"),
        ("demo 4294967295", "demo 4294967295"),
        (
            "dryrun p i --workers 000000000000000000000032",
            "dryrun p i 32 1 16 4 16 -",
        ),
    ];
    for (words, line) in table {
        assert_eq!(rt; told(rt.alloc(), words)?.as_str(), line);
    }
    Ok(())
}

#[test]
fn numbers_past_their_limits(rt: HostRuntime) -> Result<(), Fail> {
    let table = [
        "run p i --workers 0",
        "run p i --workers 33",
        "run p i --servers 0",
        "run p i --servers 9",
        "run p i --cache 1",
        "run p i --cache 65",
        "run p i --puts 0",
        "run p i --puts 17",
        "run p i --servercache 0",
        "run p i --servercache 65",
        "run p i --seed 18446744073709551616",
        "run p i --steps 18446744073709551616",
        "demo 4294967296",
        "run p i --seed 0x10",
        "run p i --seed +1",
        "run p i --seed 1.0",
        "run p i --seed ",
        "demo ",
        "demo seven",
    ];
    for words in table {
        assert_eq!(rt; told(rt.alloc(), words)?.as_str(), "usage");
    }
    Ok(())
}

#[test]
fn names_and_options_that_are_refused(rt: HostRuntime) -> Result<(), Fail> {
    let table = [
        "run  i",
        "run p ",
        "run -p i",
        "run p i --place ",
        "run p i --place -w",
        "run p i --record -",
        "run p i --workers",
        "run p i --workers 2 --workers 2",
        "run p i --seed 1 --dump --seed 1",
        "run p i --dump --dump",
        "run p i --dump yes",
        "run p i --schedule c --seed 1",
        "run p i --record s --store s",
        "run p i --store run.rec",
    ];
    for words in table {
        assert_eq!(rt; told(rt.alloc(), words)?.as_str(), "usage");
    }
    Ok(())
}
