//! Files and sinks in memory answer what they hold, and fail where that was planned.

use sip_files::{Call, Failed, Files, LoadFault, MemoryFiles, MemorySink, Sink};
use std::alloc::Global;
use std::process::Abort;

// Puts a file, which finds memory.
fn put(rt: &impl Abort, files: &mut MemoryFiles, name: &str, bytes: &[u8]) {
    assert!(rt; files.put(name, bytes).is_ok(), "{name}");
}

// Three files, one of them put twice.
fn three_files(rt: &impl Abort, alloc: Global) -> MemoryFiles {
    let mut files = MemoryFiles::new(alloc);
    put(rt, &mut files, "old", b"abc");
    put(rt, &mut files, "long", b"abcdef");
    put(rt, &mut files, "old", b"xy");
    put(rt, &mut files, "whole", b"abcde");
    files
}

// Loads a file of at most five bytes, and compares the answer and what was read.
fn expect_load<F: Files>(
    rt: &impl Abort,
    alloc: Global,
    files: &mut F,
    name: &str,
    want: Result<(), LoadFault>,
    read: &[u8],
) {
    let mut bytes = Vec::new(alloc);
    assert_eq!(rt; files.load(name, &mut bytes, 5), want, "{name}");
    assert_eq!(rt; bytes.as_slice(), read, "{name}");
}

#[test]
fn files_in_memory_answer_what_they_hold(rt: HostRuntime) {
    let alloc = rt.alloc();
    let mut files = three_files(&rt, alloc);
    expect_load(&rt, alloc, &mut files, "old", Ok(()), b"xy");
    expect_load(&rt, alloc, &mut files, "new", Err(LoadFault::Missing), b"");
    expect_load(&rt, alloc, &mut files, "long", Err(LoadFault::TooLong), b"");
    expect_load(&rt, alloc, &mut files, "whole", Ok(()), b"abcde");
    assert_eq!(rt; files.held("old"), Some(b"xy".as_slice()));
    assert_eq!(rt; files.held("new"), None);
    assert_eq!(rt; files.refused(), 0);
}

#[test]
fn a_planned_load_fails_and_the_next_one_reads(rt: HostRuntime) {
    let alloc = rt.alloc();
    let mut files = three_files(&rt, alloc);
    assert!(rt; files.fail(Call::Load, 2).is_ok());
    assert!(rt; files.fail(Call::Append, 1).is_ok());
    expect_load(&rt, alloc, &mut files, "old", Ok(()), b"xy");
    expect_load(&rt, alloc, &mut files, "old", Err(LoadFault::Failed), b"");
    expect_load(&rt, alloc, &mut files, "old", Ok(()), b"xy");
}

// Writes to a sink, and compares the answer.
fn expect_write<K: Sink>(rt: &impl Abort, sink: &mut K, bytes: &[u8], want: Result<(), Failed>) {
    assert_eq!(rt; sink.write(bytes), want);
}

#[test]
fn a_planned_write_adds_nothing(rt: HostRuntime) {
    let mut sink = MemorySink::new(rt.alloc());
    assert!(rt; sink.fail_at(2).is_ok());
    expect_write(&rt, &mut sink, b"one", Ok(()));
    expect_write(&rt, &mut sink, b"two", Err(Failed));
    expect_write(&rt, &mut sink, b"three", Ok(()));
    assert_eq!(rt; sink.bytes(), b"onethree".as_slice());
    assert_eq!(rt; sink.refused(), 0);
}
