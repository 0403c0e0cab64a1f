//! Programs that break a rule: the first one is told, and no input is loaded.

use crate::calls::{INPUT, expect, expect_status, files_with};
use sip_files::MemorySink;
use std::alloc::{AllocError, Global};

// Ten lines of declarations, so that what follows begins on line 11.
const DECLARED: &[u8] =
    b"sial n\naoindex i = 1, 2\naoindex j = 1, 2\nmoindex m = 1, 1\nstatic a(i)\nstatic b(i, j)\nlocal l(i)\ntemp t(i)\ndistributed d(i)\nscalar s\n";

// Lines behind the declarations, each with the rule that they break first.
const BROKEN: [(&[u8], &[u8]); 18] = [
    (b"a(i) = 1\n", b"sip: rule line 11: Unbound\n"),
    (
        b"do i\ndo i\nenddo i\nenddo i\n",
        b"sip: rule line 12: Rebound\n",
    ),
    (
        b"do i\nb(i, i) = 1\nenddo i\n",
        b"sip: rule line 12: Repeated\n",
    ),
    (
        b"do m\na(m) = 1\nenddo m\n",
        b"sip: rule line 12: WrongKind\n",
    ),
    (
        b"do i\nb(i) = 1\nenddo i\n",
        b"sip: rule line 12: WrongIndices\n",
    ),
    (
        b"pardo i\nd(i) = 1\nendpardo i\n",
        b"sip: rule line 12: NotWritable\n",
    ),
    (
        b"pardo i\npardo j\nendpardo\nendpardo\n",
        b"sip: rule line 12: PardoInPardo\n",
    ),
    (
        b"do i\nput d(i) = t(i)\nenddo\n",
        b"sip: rule line 12: SharedWriteOutside\n",
    ),
    (
        b"pardo i\nsip_barrier\nendpardo\n",
        b"sip: rule line 12: SyncInside\n",
    ),
    (
        b"pardo i\nprint \"x\"\nendpardo\n",
        b"sip: rule line 12: PrintInside\n",
    ),
    (
        b"pardo i\na(i) = 1\nendpardo\n",
        b"sip: rule line 12: StaticWriteInside\n",
    ),
    (
        b"pardo i\nallocate l(*)\nendpardo\nallocate l(*)\n",
        b"sip: rule line 14: MixedLocal\n",
    ),
    (
        b"pardo i\ns = 1\nendpardo\nexecute print_scalar s\n",
        b"sip: rule line 14: MixedScalar\n",
    ),
    (
        b"pardo i\ns += 1\nendpardo\nif s < 3\nendif\n",
        b"sip: rule line 14: PartialRead\n",
    ),
    (
        b"proc p\ncall p\nendproc\n",
        b"sip: rule line 12: Recursion\n",
    ),
    // A shape rule goes before a side rule of an earlier line.
    (
        b"pardo i\nprint \"x\"\nendpardo\na(i) = 1\n",
        b"sip: rule line 14: Unbound\n",
    ),
    // On one line the rule of the lower number is told.
    (
        b"do m\na(m) = t(i)\nenddo m\n",
        b"sip: rule line 12: Unbound\n",
    ),
    // Recursion goes before a side rule of an earlier line.
    (
        b"proc p\npardo i\nprint \"x\"\nendpardo\ncall p\nendproc\n",
        b"sip: rule line 15: Recursion\n",
    ),
];

// A program of the declarations and these lines.
fn program(alloc: Global, lines: &[u8]) -> Result<Vec<u8>, AllocError> {
    let mut text = Vec::from_slice(alloc, DECLARED)?;
    text.extend_from_slice(lines)?;
    text.extend_from_slice(b"endsial\n")?;
    Ok(text)
}

#[test]
fn each_rule_has_its_line(rt: HostRuntime) {
    let alloc = rt.alloc();
    for (lines, line) in BROKEN {
        let text = program(alloc, lines).expect(&rt, "memory is found");
        expect_status(&rt, alloc, &text, INPUT, 4, line);
    }
}

#[test]
fn a_broken_rule_needs_no_input(rt: HostRuntime) {
    let alloc = rt.alloc();
    let text = program(alloc, b"a(i) = 1\n").expect(&rt, "memory is found");
    let mut files = files_with(&rt, alloc, &text, INPUT);
    let mut out = MemorySink::new(alloc);
    let words = ["sip", "run", "first.sial", "none.in"];
    let line = b"sip: rule line 11: Unbound\n";
    expect(&rt, alloc, &words, &mut files, &mut out, 4, line);
    let missing = ["sip", "run", "none.sial", "none.in"];
    let unread = b"sip: read none.sial\n";
    expect(&rt, alloc, &missing, &mut files, &mut out, 2, unread);
}
