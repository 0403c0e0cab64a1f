//! Every command, with its defaults and with all of its options.

use crate::telling::told;
use std::test::Fail;

#[test]
fn each_command_has_its_defaults(rt: HostRuntime) -> Result<(), Fail> {
    let table = [
        (
            "run p i",
            "run p i 1 1 16 4 16 - unchosen run.rec - - false",
        ),
        ("check p i", "check p i"),
        ("compile p t", "compile p t"),
        ("dryrun p i", "dryrun p i 1 1 16 4 16 -"),
        ("replay p i r", "replay p i r 1 1 16 4 16 -"),
        ("demo 7", "demo 7"),
    ];
    for (words, line) in table {
        assert_eq!(rt; told(rt.alloc(), words)?.as_str(), line);
    }
    Ok(())
}

#[test]
fn each_command_has_its_options(rt: HostRuntime) -> Result<(), Fail> {
    let table = [
        (
            "run p i --workers 2 --servers 3 --cache 5 --puts 6 --servercache 7 --place w --schedule c --record r --store s --steps 9 --dump",
            "run p i 2 3 5 6 7 w file c r s 9 true",
        ),
        (
            "run p i --seed 8",
            "run p i 1 1 16 4 16 - seed 8 run.rec - - false",
        ),
        (
            "dryrun p i --workers 2 --servers 3 --cache 5 --puts 6 --servercache 7 --place w",
            "dryrun p i 2 3 5 6 7 w",
        ),
        (
            "replay p i r --workers 2 --servers 3 --cache 5 --puts 6 --servercache 7 --place w",
            "replay p i r 2 3 5 6 7 w",
        ),
    ];
    for (words, line) in table {
        assert_eq!(rt; told(rt.alloc(), words)?.as_str(), line);
    }
    Ok(())
}

#[test]
fn no_command_has_what_is_another_one_s(rt: HostRuntime) -> Result<(), Fail> {
    let table = [
        "check p i --workers 2",
        "compile p t --dump",
        "demo 7 --seed 1",
        "dryrun p i --seed 1",
        "dryrun p i --dump",
        "replay p i r --steps 1",
        "run p i --unknown 1",
        "run p",
        "run p i r",
        "check p",
        "compile p",
        "replay p i",
        "demo",
        "demo 7 8",
        "RUN p i",
        "walk p i",
        "",
    ];
    for words in table {
        assert_eq!(rt; told(rt.alloc(), words)?.as_str(), "usage");
    }
    Ok(())
}
