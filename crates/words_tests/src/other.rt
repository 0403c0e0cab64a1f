//! Words that aren't spelled plainly.

use crate::telling::told;
use std::test::Fail;

#[test]
fn other_spellings_ask_for_the_same(rt: HostRuntime) -> Result<(), Fail> {
    let table = [
        ("dryrun p i --workers=2", "dryrun p i 2 1 16 4 16 -"),
        ("dryrun --workers 2 p i", "dryrun p i 2 1 16 4 16 -"),
        (
            "dryrun p --workers=2 i --place=w",
            "dryrun p i 2 1 16 4 16 w",
        ),
        ("dryrun -- p i", "dryrun p i 1 1 16 4 16 -"),
        (
            "run --dump p --seed=8 i",
            "run p i 1 1 16 4 16 - seed 8 run.rec - - true",
        ),
        ("check -- p i", "check p i"),
        ("demo -- 7", "demo 7"),
    ];
    for (words, line) in table {
        assert_eq!(rt; told(rt.alloc(), words)?.as_str(), line);
    }
    Ok(())
}

#[test]
fn other_spellings_are_within_the_same_limits(rt: HostRuntime) -> Result<(), Fail> {
    let table = [
        "run p i --workers=33",
        "run p i --workers=2 --workers=2",
        "run --dump p i --dump",
        "run p i --dump=true",
        "run p i --seed=18446744073709551616",
        "run p i --seed=1 --schedule=c",
        "run p i --store=run.rec",
        "run p i --place=",
        "run p i --place=-w",
        "run -- -p i",
        "run p i --work 2",
        "run p i -w 2",
        "demo -- 4294967296",
        "demo -- -1",
    ];
    for words in table {
        assert_eq!(rt; told(rt.alloc(), words)?.as_str(), "usage");
    }
    Ok(())
}

#[test]
fn help_is_usage(rt: HostRuntime) -> Result<(), Fail> {
    let table = [
        "--help",
        "-h",
        "help",
        "help run",
        "run --help",
        "run p i --help",
        "demo -h",
        "--version",
        "-V",
    ];
    for words in table {
        assert_eq!(rt; told(rt.alloc(), words)?.as_str(), "usage");
    }
    Ok(())
}

#[test]
fn more_than_64_words_are_usage(rt: HostRuntime) -> Result<(), Fail> {
    let alloc = rt.alloc();
    let mut words = String::from_str(alloc, "check p i")?;
    for _ in 0..61 {
        words.push_str(" --")?;
    }
    assert_eq!(rt; told(alloc, words.as_str())?.as_str(), "usage");
    Ok(())
}
