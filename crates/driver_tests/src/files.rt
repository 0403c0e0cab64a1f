//! Files that aren't read: the first of them is named.

use crate::calls::{INPUT, PROGRAM, WORDS, expect, files_with};
use sip_files::{Call, MemoryFiles, MemorySink};
use std::alloc::Global;
use std::process::Abort;

// Calls `sip` with these words, and compares the line on a file that wasn't read.
fn expect_unread(
    rt: &impl Abort,
    alloc: Global,
    words: &[&str],
    files: &mut MemoryFiles,
    line: &[u8],
) {
    let mut out = MemorySink::new(alloc);
    expect(rt, alloc, words, files, &mut out, 2, line);
    assert_eq!(rt; out.bytes(), b"".as_slice());
}

#[test]
fn a_missing_file_is_named(rt: HostRuntime) {
    let alloc = rt.alloc();
    let mut files = files_with(&rt, alloc, PROGRAM, INPUT);
    let program = ["sip", "run", "none.sial", "first.in"];
    expect_unread(&rt, alloc, &program, &mut files, b"sip: read none.sial\n");
    let input = ["sip", "run", "first.sial", "none.in"];
    expect_unread(&rt, alloc, &input, &mut files, b"sip: read none.in\n");
    let both = ["sip", "run", "none.sial", "none.in"];
    expect_unread(&rt, alloc, &both, &mut files, b"sip: read none.sial\n");
}

#[test]
fn the_file_of_a_failing_load_is_named(rt: HostRuntime) {
    let alloc = rt.alloc();
    let mut first = files_with(&rt, alloc, PROGRAM, INPUT);
    assert!(rt; first.fail(Call::Load, 1).is_ok());
    expect_unread(&rt, alloc, &WORDS, &mut first, b"sip: read first.sial\n");
    let mut second = files_with(&rt, alloc, PROGRAM, INPUT);
    assert!(rt; second.fail(Call::Load, 2).is_ok());
    expect_unread(&rt, alloc, &WORDS, &mut second, b"sip: read first.in\n");
}

#[test]
fn an_input_past_its_limit_is_named(rt: HostRuntime) {
    let alloc = rt.alloc();
    let long = vec![in alloc; b' '; 1_048_577].expect(&rt, "memory is found");
    let mut files = files_with(&rt, alloc, PROGRAM, &long);
    expect_unread(&rt, alloc, &WORDS, &mut files, b"sip: read first.in\n");
}
