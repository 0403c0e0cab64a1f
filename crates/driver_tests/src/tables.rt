//! Table files in the place of a program's text.

use crate::calls::{INPUT, PROGRAM, expect, files_with};
use sip_files::{MemoryFiles, MemorySink};
use std::alloc::Global;
use std::process::Abort;

// Compiles the program, and gives files with its table.
fn compiled(rt: &impl Abort, alloc: Global, program: &[u8]) -> MemoryFiles {
    let mut files = files_with(rt, alloc, program, INPUT);
    let mut out = MemorySink::new(alloc);
    let words = ["sip", "compile", "first.sial", "table"];
    expect(rt, alloc, &words, &mut files, &mut out, 0, b"");
    files
}

#[test]
fn a_table_file_runs_as_its_text(rt: HostRuntime) {
    let alloc = rt.alloc();
    let mut files = compiled(&rt, alloc, PROGRAM);
    let mut out = MemorySink::new(alloc);
    let words = ["sip", "run", "table", "first.in"];
    expect(&rt, alloc, &words, &mut files, &mut out, 0, b"");
    assert_eq!(rt; out.bytes(), b"s 72\ns 36\n".as_slice());
}

#[test]
fn a_table_file_has_its_own_table(rt: HostRuntime) {
    let alloc = rt.alloc();
    let mut files = compiled(&rt, alloc, PROGRAM);
    let mut out = MemorySink::new(alloc);
    let words = ["sip", "compile", "table", "again"];
    expect(&rt, alloc, &words, &mut files, &mut out, 0, b"");
    assert!(rt; files.held("table").is_some());
    assert_eq!(rt; files.held("again"), files.held("table"));
}

// Runs a table file, and compares the line.
fn expect_line(rt: &impl Abort, alloc: Global, table: &[u8], line: &[u8]) {
    let mut files = MemoryFiles::new(alloc);
    assert!(rt; files.put("table", table).is_ok());
    let mut out = MemorySink::new(alloc);
    let words = ["sip", "run", "table", "none.in"];
    expect(rt, alloc, &words, &mut files, &mut out, 3, line);
    assert_eq!(rt; out.bytes(), b"".as_slice());
}

#[test]
fn a_table_file_that_is_none_is_told_with_its_place(rt: HostRuntime) {
    for (table, line) in [
        (b"SIPT".as_slice(), b"sip: table at 4: Short\n".as_slice()),
        (b"SIPT\x00\x03", b"sip: table at 0: Version\n"),
        // 257 indices
        (
            b"SIPT\x00\x01\x00\x00\x00\x01\x00\x01p\x00\x00\x01\x01",
            b"sip: table at 13: TooMany\n",
        ),
        // an operation that there isn't
        (
            b"SIPT\x00\x01\x00\x00\x00\x01\x00\x01p\x00\x00\x00\x00\x00\x00\x00\x00\x00\x00\x00\x00\x00\x00\x00\x00\x00\x00\x00\x01\xff",
            b"sip: table at 33: Field\n",
        ),
        // a byte behind the code
        (
            b"SIPT\x00\x01\x00\x00\x00\x01\x00\x01p\x00\x00\x00\x00\x00\x00\x00\x00\x00\x00\x00\x00\x00\x00\x00\x00\x00\x00\x00\x00\x00",
            b"sip: table at 33: Rest\n",
        ),
    ] {
        expect_line(&rt, rt.alloc(), table, line);
    }
}

#[test]
fn the_tables_of_no_program_are_told_with_the_instruction(rt: HostRuntime) {
    for (table, line) in [
        // no instruction
        (
            b"SIPT\x00\x01\x00\x00\x00\x01\x00\x01p\x00\x00\x00\x00\x00\x00\x00\x00\x00\x00\x00\x00\x00\x00\x00\x00\x00\x00\x00\x00".as_slice(),
            b"sip: table instruction 0: Nest\n".as_slice(),
        ),
        // a text that nothing uses
        (
            b"SIPT\x00\x01\x00\x00\x00\x02\x00\x01p\x00\x01q\x00\x00\x00\x00\x00\x00\x00\x00\x00\x00\x00\x00\x00\x00\x00\x00\x00\x00\x00\x01\x01\x00\x00\x00\x00\x00\x00\x00\x00\x00\x00\x00\x00\x00\x00\x00\x00\x00\x00\x00\x00\x00\x00\x00\x00\x00\x00\x00\x00\x00\x00\x00\x00\x00\x00\x00\x00\x00\x00\x00\x00\x00\x00\x00\x00\x00\x00\x00\x00\x00\x00\x00\x00\x00\x00\x00\x00\x00\x00\x00",
            b"sip: table instruction 0: Id\n",
        ),
    ] {
        expect_line(&rt, rt.alloc(), table, line);
    }
}
