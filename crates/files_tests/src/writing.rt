//! Files in memory are cleared and added to, by name and through a sink.

use sip_files::{Call, Failed, FileSink, Files, MemoryFiles, Sink};
use std::process::Abort;

// Compares what a name has.
fn expect_held(rt: &impl Abort, files: &MemoryFiles, name: &str, want: Option<&[u8]>) {
    assert_eq!(rt; files.held(name), want, "{name}");
}

#[test]
fn files_are_cleared_and_added_to(rt: HostRuntime) {
    let mut files = MemoryFiles::new(rt.alloc());
    assert!(rt; files.put("old", b"abc").is_ok());
    assert!(rt; files.put("other", b"xyz").is_ok());
    assert_eq!(rt; files.append("old", b"de"), Ok(()));
    assert_eq!(rt; files.append("new", b"fg"), Ok(()));
    expect_held(&rt, &files, "old", Some(b"abcde".as_slice()));
    expect_held(&rt, &files, "new", Some(b"fg".as_slice()));
    assert_eq!(rt; files.clear("old"), Ok(()));
    assert_eq!(rt; files.clear("never"), Ok(()));
    expect_held(&rt, &files, "old", Some(b"".as_slice()));
    expect_held(&rt, &files, "never", Some(b"".as_slice()));
    expect_held(&rt, &files, "other", Some(b"xyz".as_slice()));
}

#[test]
fn a_planned_call_changes_nothing(rt: HostRuntime) {
    let mut files = MemoryFiles::new(rt.alloc());
    assert!(rt; files.fail(Call::Clear, 1).is_ok());
    assert!(rt; files.fail(Call::Append, 2).is_ok());
    assert_eq!(rt; files.append("f", b"ab"), Ok(()));
    assert_eq!(rt; files.clear("f"), Err(Failed));
    assert_eq!(rt; files.append("f", b"cd"), Err(Failed));
    expect_held(&rt, &files, "f", Some(b"ab".as_slice()));
    assert_eq!(rt; files.append("f", b"ef"), Ok(()));
    assert_eq!(rt; files.clear("f"), Ok(()));
    expect_held(&rt, &files, "f", Some(b"".as_slice()));
    assert_eq!(rt; files.refused(), 0);
}

// Writes twice at the end of a file.
fn write_two(files: &mut MemoryFiles, name: &str) -> Result<(), Failed> {
    let mut sink = FileSink {
        files: &mut *files,
        name,
    };
    sink.write(b"one")?;
    sink.write(b"two")
}

#[test]
fn a_sink_adds_to_its_file_alone(rt: HostRuntime) {
    let mut files = MemoryFiles::new(rt.alloc());
    assert!(rt; files.put("other", b"xyz").is_ok());
    assert_eq!(rt; write_two(&mut files, "f"), Ok(()));
    expect_held(&rt, &files, "f", Some(b"onetwo".as_slice()));
    assert!(rt; files.fail(Call::Append, 4).is_ok());
    assert_eq!(rt; write_two(&mut files, "f"), Err(Failed));
    expect_held(&rt, &files, "f", Some(b"onetwoone".as_slice()));
    expect_held(&rt, &files, "other", Some(b"xyz".as_slice()));
}
