//! Runs of a program: what is written, and what is left where the output fails.

use crate::calls::{INPUT, PROGRAM, WORDS, expect, files_with};
use sip_files::MemorySink;

#[test]
fn the_first_program_prints_its_two_lines(rt: HostRuntime) {
    let alloc = rt.alloc();
    let mut files = files_with(&rt, alloc, PROGRAM, INPUT);
    let mut out = MemorySink::new(alloc);
    expect(&rt, alloc, &WORDS, &mut files, &mut out, 0, b"");
    assert_eq!(rt; out.bytes(), b"s 72\ns 36\n".as_slice());
}

#[test]
fn other_words_are_usage(rt: HostRuntime) {
    let alloc = rt.alloc();
    let mut files = files_with(&rt, alloc, PROGRAM, INPUT);
    let mut out = MemorySink::new(alloc);
    let three = ["sip", "run", "first.sial"];
    expect(&rt, alloc, &three, &mut files, &mut out, 1, b"sip: usage\n");
    let other = ["sip", "check", "first.sial", "first.in"];
    expect(&rt, alloc, &other, &mut files, &mut out, 1, b"sip: usage\n");
}

#[test]
fn a_failing_write_leaves_the_lines_before_it(rt: HostRuntime) {
    let alloc = rt.alloc();
    let mut files = files_with(&rt, alloc, PROGRAM, INPUT);
    for (nth, left) in [(1, b"".as_slice()), (7, b"s 72\ns ".as_slice())] {
        let mut out = MemorySink::new(alloc);
        assert!(rt; out.fail_at(nth).is_ok());
        expect(
            &rt,
            alloc,
            &WORDS,
            &mut files,
            &mut out,
            10,
            b"sip: write output\n",
        );
        assert_eq!(rt; out.bytes(), left);
    }
}
