//! The host's files and standard streams: what only a run shows.

use either::{Either, Left, Right};
use sip_files::{Failed, Files, HostFiles, HostSink, LoadFault, Sink};
use std::io::{Stderr, Stdout};

#[test]
fn the_host_refuses_what_it_cannot_read(rt: HostRuntime) {
    for (name, want) in [
        ("/dev/null", Ok(())),
        ("/dev/zero", Err(LoadFault::TooLong)),
        ("/dev", Err(LoadFault::Failed)),
        ("no such file", Err(LoadFault::Failed)),
    ] {
        let mut files = HostFiles::new(&rt);
        let mut bytes = Vec::new(rt.alloc());
        assert_eq!(rt; files.load(name, &mut bytes, 9), want, "{name}");
    }
}

#[test]
fn the_host_refuses_what_it_cannot_write(rt: HostRuntime) {
    for (name, clear, append) in [
        ("/dev/null", Ok(()), Ok(())),
        ("/dev/full", Ok(()), Err(Failed)),
        ("/dev", Err(Failed), Err(Failed)),
        ("no such folder/file", Err(Failed), Err(Failed)),
    ] {
        let mut files = HostFiles::new(&rt);
        assert_eq!(rt; files.clear(name), clear, "{name}");
        assert_eq!(rt; files.append(name, b"x"), append, "{name}");
    }
}

#[test]
fn a_file_of_the_host_is_cleared_added_to_and_read(rt: HostRuntime) {
    let mut files = HostFiles::new(&rt);
    for bytes in [b"abc".as_slice(), b"de", b""] {
        assert_eq!(rt; files.clear("written"), Ok(()));
        assert_eq!(rt; files.append("written", bytes), Ok(()));
        assert_eq!(rt; files.append("written", b"fg"), Ok(()));
        let mut read = Vec::new(rt.alloc());
        assert_eq!(rt; files.load("written", &mut read, 9), Ok(()));
        assert!(rt; read.as_slice().starts_with(bytes) && read.as_slice().ends_with(b"fg"));
        assert_eq!(rt; read.len(), bytes.len() + 2);
    }
}

#[test]
fn both_standard_streams_are_one_type(rt: HostRuntime) {
    let mut sinks: [HostSink<Either<Stdout, Stderr>>; 2] = [
        HostSink::new(Left(rt.stdout())),
        HostSink::new(Right(rt.stderr())),
    ];
    for sink in sinks.iter_mut() {
        assert_eq!(rt; sink.write(b""), Ok(()));
    }
}
