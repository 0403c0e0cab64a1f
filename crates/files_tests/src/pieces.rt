//! Bytes that go out and come in by pieces: none is lost, none comes twice, and a failure leaves a first part.

use crate::streams::{Giving, Taking, Turn, Turns};
use sip_files::{Failed, HostSink, LoadFault, Sink, read_whole};
use std::alloc::Global;
use std::process::Abort;

const ONE: Turn = Turn::Move(1);

const THREE: Turn = Turn::Move(3);

const NONE: Turn = Turn::Move(0);

const END: Turn = Turn::Move(9);

// Writes five bytes through a sink over a stream, and compares the answer and what the stream kept.
fn expect_written(
    rt: &impl Abort,
    alloc: Global,
    turns: &[Turn],
    want: Result<(), Failed>,
    kept: &[u8],
) {
    let mut stream = Taking {
        turns: Turns::new(turns),
        kept: Vec::new(alloc),
    };
    let mut sink = HostSink::new(&mut stream);
    assert_eq!(rt; sink.write(b"abcde"), want);
    assert_eq!(rt; stream.kept.as_slice(), kept);
}

#[test]
fn bytes_are_written_in_pieces(rt: HostRuntime) {
    let alloc = rt.alloc();
    expect_written(&rt, alloc, &[ONE, THREE, ONE], Ok(()), b"abcde");
    expect_written(&rt, alloc, &[THREE, THREE], Ok(()), b"abcde");
    expect_written(
        &rt,
        alloc,
        &[ONE, Turn::Interrupt, ONE, THREE],
        Ok(()),
        b"abcde",
    );
    expect_written(&rt, alloc, &[ONE, THREE, NONE, ONE], Err(Failed), b"abcd");
    expect_written(&rt, alloc, &[THREE, Turn::Fail, THREE], Err(Failed), b"abc");
    expect_written(&rt, alloc, &[NONE, THREE, THREE], Err(Failed), b"");
}

// Reads a stream of five bytes, and compares the answer and what was read.
fn expect_read(
    rt: &impl Abort,
    alloc: Global,
    turns: &[Turn],
    most: u64,
    want: Result<(), LoadFault>,
    read: &[u8],
) {
    let stream = Giving {
        turns: Turns::new(turns),
        bytes: b"abcde",
    };
    let mut bytes = Vec::new(alloc);
    assert_eq!(rt; read_whole(stream, &mut bytes, most), want);
    assert_eq!(rt; bytes.as_slice(), read);
}

#[test]
fn a_stream_is_read_in_pieces(rt: HostRuntime) {
    let alloc = rt.alloc();
    let too_long = Err(LoadFault::TooLong);
    let failed = Err(LoadFault::Failed);
    expect_read(&rt, alloc, &[ONE, THREE, ONE, END], 5, Ok(()), b"abcde");
    expect_read(
        &rt,
        alloc,
        &[ONE, Turn::Interrupt, THREE, THREE, END],
        9,
        Ok(()),
        b"abcde",
    );
    expect_read(&rt, alloc, &[ONE, THREE, ONE, END], 4, too_long, b"abcde");
    expect_read(&rt, alloc, &[ONE, THREE, ONE, END], 2, too_long, b"abc");
    expect_read(
        &rt,
        alloc,
        &[ONE, THREE, Turn::Fail, ONE],
        9,
        failed,
        b"abcd",
    );
    expect_read(&rt, alloc, &[Turn::Fail], 9, failed, b"");
}
