//! Calls of `sip`, and what they are compared with.

use sip_driver::sip;
use sip_files::{MemoryFiles, MemorySink};
use std::alloc::{AllocError, Global};
use std::process::Abort;

/// A program of the first profile.
pub const PROGRAM: &[u8] =
    b"sial first\naoindex i = 1, 2\nstatic a(i)\nscalar s\ndo i\na(i) = 3\na(i) += a(i)\ns = a(i) * a(i)\nexecute print_scalar s\nenddo i\nendsial first\n";

/// Its input.
pub const INPUT: &[u8] = b"segments ao 2 1\n";

/// The words that run them.
pub const WORDS: [&str; 4] = ["sip", "run", "first.sial", "first.in"];

/// Files that hold a program and an input.
pub fn files_with(rt: &impl Abort, alloc: Global, program: &[u8], input: &[u8]) -> MemoryFiles {
    let mut files = MemoryFiles::new(alloc);
    assert!(rt; files.put("first.sial", program).is_ok());
    assert!(rt; files.put("first.in", input).is_ok());
    files
}

/// Calls `sip` with these words, and compares its status and its line.
pub fn expect(
    rt: &impl Abort,
    alloc: Global,
    words: &[&str],
    files: &mut MemoryFiles,
    out: &mut MemorySink,
    status: u8,
    line: &[u8],
) {
    let mut err = MemorySink::new(alloc);
    let words = owned(alloc, words).expect(rt, "memory is found");
    let answer = sip(alloc, &words, files, out, &mut err);
    assert_eq!(rt; answer.0, status);
    assert_eq!(rt; err.bytes(), line);
}

/// Runs a program over an input, and compares the status and the line.
pub fn expect_status(
    rt: &impl Abort,
    alloc: Global,
    program: &[u8],
    input: &[u8],
    status: u8,
    line: &[u8],
) {
    let mut files = files_with(rt, alloc, program, input);
    let mut out = MemorySink::new(alloc);
    expect(rt, alloc, &WORDS, &mut files, &mut out, status, line);
}

fn owned(alloc: Global, words: &[&str]) -> Result<Vec<String>, AllocError> {
    let mut all = Vec::new(alloc);
    for word in words {
        all.push(String::from_str(alloc, word)?)?;
    }
    Ok(all)
}
