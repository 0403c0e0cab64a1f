//! `sip compile`: the table that it writes, and what it refuses.

use crate::calls::{expect, files_with};
use sip_files::{Call, MemoryFiles, MemorySink};
use std::alloc::Global;
use std::process::Abort;

const PROGRAM: &[u8] = b"sial p\nendsial p\n";

const WORDS: [&str; 4] = ["sip", "compile", "first.sial", "table"];

// The table of a program without statements, up to the zeros with which it ends.
const FRONT: &[u8] =
    b"SIPT\x00\x01\x00\x00\x00\x01\x00\x01p\x00\x00\x00\x00\x00\x00\x00\x00\x00\x00\x00\x00\x00\x00\x00\x00\x00\x00\x00\x01\x01";

// Compiles the program over what the table's file held, and compares the status and the line.
fn expect_status(
    rt: &impl Abort,
    alloc: Global,
    files: &mut MemoryFiles,
    program: &[u8],
    status: u8,
    line: &[u8],
) {
    assert!(rt; files.put("first.sial", program).is_ok());
    let mut out = MemorySink::new(alloc);
    expect(rt, alloc, &WORDS, files, &mut out, status, line);
    assert_eq!(rt; out.bytes(), b"".as_slice());
}

#[test]
fn the_table_is_written_in_place_of_what_was_there(rt: HostRuntime) {
    let alloc = rt.alloc();
    let mut files = files_with(&rt, alloc, PROGRAM, b"");
    expect_status(&rt, alloc, &mut files, PROGRAM, 0, b"");
    let table = files.held("table").unwrap_or(b"");
    assert_eq!(rt; table.len(), 93);
    assert!(rt; table.starts_with(FRONT));
    assert!(rt;
        files
            .put(
                "table",
                b"something longer than a table, so that what it had would be seen behind the table's last byte if it stayed"
            )
            .is_ok()
    );
    expect_status(&rt, alloc, &mut files, PROGRAM, 0, b"");
    assert_eq!(rt; files.held("table").unwrap_or(b"").len(), 93);
    assert_eq!(rt; files.held("first.sial").unwrap_or(b""), PROGRAM);
}

#[test]
fn what_is_no_program_has_no_table(rt: HostRuntime) {
    let alloc = rt.alloc();
    let mut files = files_with(&rt, alloc, PROGRAM, b"");
    assert!(rt; files.put("table", b"kept").is_ok());
    let faulty = b"sip: syntax line 1: Expected\n";
    expect_status(&rt, alloc, &mut files, b"sial", 3, faulty);
    let broken = b"sial n\naoindex i = 1, 1\nstatic a(i)\na(i) = 1\nendsial n\n";
    let unbound = b"sip: rule line 4: Unbound\n";
    expect_status(&rt, alloc, &mut files, broken, 4, unbound);
    let mut out = MemorySink::new(alloc);
    let words = ["sip", "compile", "none.sial", "table"];
    let unread = b"sip: read none.sial\n";
    expect(&rt, alloc, &words, &mut files, &mut out, 2, unread);
    assert_eq!(rt; files.held("table").unwrap_or(b""), b"kept".as_slice());
}

// A program with a loop, a call and a condition needs no input to be compiled.
const WHOLE: &[u8] =
    b"sial n\nmoindex i = 1, last\ntemp t(i)\nserved v(i)\nscalar s\nproc p\nif s < 3\npardo i\nt(i) = 1\nprepare v(i) = t(i)\nendpardo i\nendif\nendproc p\ncall p\nserver_barrier\nendsial n\n";

#[test]
fn programs_that_do_not_run_yet_are_compiled(rt: HostRuntime) {
    let alloc = rt.alloc();
    let mut files = files_with(&rt, alloc, WHOLE, b"");
    expect_status(&rt, alloc, &mut files, WHOLE, 0, b"");
    let table = files.held("table").unwrap_or(b"");
    assert!(rt; table.starts_with(b"SIPT\x00\x01"));
    assert!(rt; table.len() > 500);
}

#[test]
fn a_table_that_is_not_written_whole_is_told(rt: HostRuntime) {
    let alloc = rt.alloc();
    let line = b"sip: write table\n";
    let mut uncleared = files_with(&rt, alloc, PROGRAM, b"");
    assert!(rt; uncleared.fail(Call::Clear, 1).is_ok());
    expect_status(&rt, alloc, &mut uncleared, PROGRAM, 10, line);
    let mut cut = files_with(&rt, alloc, PROGRAM, b"");
    assert!(rt; cut.fail(Call::Append, 2).is_ok());
    expect_status(&rt, alloc, &mut cut, PROGRAM, 10, line);
    assert!(rt; FRONT.starts_with(cut.held("table").unwrap_or(b"none")));
}

#[test]
fn options_that_are_not_built_are_usage(rt: HostRuntime) {
    let alloc = rt.alloc();
    let mut files = files_with(&rt, alloc, PROGRAM, b"");
    let mut out = MemorySink::new(alloc);
    let dump = ["sip", "run", "first.sial", "first.in", "--dump"];
    expect(&rt, alloc, &dump, &mut files, &mut out, 1, b"sip: usage\n");
    let check = ["sip", "check", "first.sial", "first.in"];
    expect(&rt, alloc, &check, &mut files, &mut out, 1, b"sip: usage\n");
    let usual = ["sip", "run", "first.sial", "first.in", "--workers", "1"];
    expect(&rt, alloc, &usual, &mut files, &mut out, 0, b"");
}
