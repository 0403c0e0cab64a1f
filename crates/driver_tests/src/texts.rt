//! Texts that are programs of the first profile, texts that nearly are, and texts with a fault.

use crate::calls::{INPUT, PROGRAM, WORDS, expect, expect_status, files_with};
use sip_files::MemorySink;

// The same program in other spellings, and others of the first profile.
const PROGRAMS: [&[u8]; 12] = [
    PROGRAM,
    b"sial e\nendsial e",
    b"\nsial n\n\nendsial n\n\n",
    b"sial n\r\nSCALAR  S \r\nEndSial N\r\n",
    b"sial n  # a comment\nscalar s\ns=1\ns+=2\nendsial\tn\n",
    b"sial n\nscalar a_1\na_1 = 18446744073709551615\na_1 += 007\nendsial n",
    b"sial n\nscalar s\ns = -1\ns += 2.0\nendsial n\n",
    b"sial n\naoindex i = 2, 1\ndo i\nenddo i\ndo i\nenddo i\nendsial n\n",
    b"sial n\naoindex i = 1, 2\nstatic a(i)\ndo i\na(i) = 1\nenddo\nendsial\n",
    b"sial n\naoindex i = 1, 2\nstatic a(i)\ndo i\na(i) = 1\nenddo i\nendsial n\n",
    b"sial n\nproc p\nendproc p\nendsial n\n",
    b"sial n\nscalar a\nscalar b\nscalar c\nscalar d\nscalar e\nscalar f\nscalar g\nscalar h\nscalar i\nendsial n\n",
];

const INPUTS: [&[u8]; 4] = [
    b"segments ao 2 1",
    b"segments ao 1 1024 7",
    b"segments ao 2  1",
    b"# two\n\nSEGMENTS AO 2 1 \n\n",
];

#[test]
fn texts_of_the_first_profile_are_run(rt: HostRuntime) {
    for program in &PROGRAMS {
        expect_status(&rt, rt.alloc(), program, INPUT, 0, b"");
    }
    for input in &INPUTS {
        expect_status(&rt, rt.alloc(), PROGRAM, input, 0, b"");
    }
}

#[test]
fn spelling_does_not_matter(rt: HostRuntime) {
    let alloc = rt.alloc();
    let program = b"SIAL first\naoindex i=1,2 static_\n";
    expect_status(
        &rt,
        alloc,
        program,
        INPUT,
        3,
        b"sip: syntax line 2: Expected\n",
    );
    let spaced =
        b"SIAL  first\nAOINDEX i = 1,2\nstatic a( I )\n\nscalar s\ndo i\na(i)=3\nA(i) += a(i)\ns = a(i)*a(i)\nexecute  print_scalar S\nenddo\nendsial first\n";
    let mut files = files_with(&rt, alloc, spaced, INPUT);
    let mut out = MemorySink::new(alloc);
    expect(&rt, alloc, &WORDS, &mut files, &mut out, 0, b"");
    assert_eq!(rt; out.bytes(), b"s 72\ns 36\n".as_slice());
}

// Texts with a fault, each with its line.
const FAULTS: [(&[u8], &[u8]); 15] = [
    (b"", b"sip: syntax line 1: Expected\n"),
    (b"\n", b"sip: syntax line 2: Expected\n"),
    (b"sial n\nendsial m\n", b"sip: syntax line 2: EndName\n"),
    (
        b"sial n\ns = 1\nendsial n\n",
        b"sip: syntax line 2: Undeclared\n",
    ),
    (
        b"sial n\nscalar s\nscalar s\nendsial n\n",
        b"sip: syntax line 3: Twice\n",
    ),
    (
        b"sial n\nscalar print\nendsial n\n",
        b"sip: syntax line 2: Expected\n",
    ),
    (
        b"sial n\nscalar s\ns = 18446744073709551616\nendsial n\n",
        b"sip: syntax line 3: TooWide\n",
    ),
    (
        b"sial n\nscalar s\ns = 1\nscalar t\nendsial n\n",
        b"sip: syntax line 4: Expected\n",
    ),
    (
        b"sial n\nscalar s\ns += 0.5\nendsial n\n",
        b"sip: syntax line 3: Fraction\n",
    ),
    (
        b"sial n\nscalar s\ny += 2\nendsial n\n",
        b"sip: syntax line 3: Undeclared\n",
    ),
    (
        b"sial n\nscalar s\ns += += 2\nendsial n\n",
        b"sip: syntax line 3: Expected\n",
    ),
    (
        b"sial n\nscalar s\ns += 2 !\nendsial n\n",
        b"sip: syntax line 3: BadByte\n",
    ),
    (
        b"sial n\nprint \"open\nendsial n\n",
        b"sip: syntax line 2: OpenText\n",
    ),
    (
        b"sial n\naoindex i = 1, 1\nstatic a(i, i, i, i, i, i, i)\nendsial n\n",
        b"sip: syntax line 3: TooMany\n",
    ),
    (
        b"sial n\ncall p\nendsial n\n",
        b"sip: syntax line 2: Undeclared\n",
    ),
];

#[test]
fn the_line_of_a_fault_is_told(rt: HostRuntime) {
    for (text, line) in FAULTS {
        expect_status(&rt, rt.alloc(), text, INPUT, 3, line);
    }
}

#[test]
fn a_faulty_text_needs_no_input(rt: HostRuntime) {
    let alloc = rt.alloc();
    let mut files = files_with(&rt, alloc, b"sial", INPUT);
    let mut out = MemorySink::new(alloc);
    let words = ["sip", "run", "first.sial", "none.in"];
    let line = b"sip: syntax line 1: Expected\n";
    expect(&rt, alloc, &words, &mut files, &mut out, 3, line);
}

// Programs that the rules grant and the small evaluator can't run.
const OTHER_PROGRAMS: [&[u8]; 12] = [
    b"sial n\nmoindex i = 1, 1\nendsial n\n",
    b"sial n\naoindex i = 1, 1\nsubindex j of i\nendsial n\n",
    b"sial n\naoindex i = 1, 1\ntemp a(i)\nendsial n\n",
    b"sial n\naoindex i = 1, 1\nstatic a(i, i)\nendsial n\n",
    b"sial n\naoindex i = 1, 1\naoindex j = 1, 1\ndo i\ndo j\nenddo j\nenddo i\nendsial n\n",
    b"sial n\naoindex i = 1, 1\naoindex j = 1, 1\nstatic a(i)\ndo j\na(j) = 1\nenddo j\nendsial n\n",
    b"sial n\naoindex i = 1, 1\nstatic a(i)\ndo i\na(i) *= 2\nenddo i\nendsial n\n",
    b"sial n\nproc p\nprint \"text\"\nendproc p\nendsial n\n",
    b"sial n\nproc p\nendproc p\ncall p\nendsial n\n",
    b"sial n\nscalar s\ns -= 1\nendsial n\n",
    b"sial n\nprint \"text\"\nendsial n\n",
    b"sial n\nsip_barrier\nendsial n\n",
];

const WIDE_INPUT: &[u8] = b"segments ao 2 1\nsegments mo 3\nsubsegment ao 1\n";

#[test]
fn other_programs_are_refused_behind_the_rules(rt: HostRuntime) {
    let line = b"sip: syntax line 0: FirstPath\n";
    for program in &OTHER_PROGRAMS {
        expect_status(&rt, rt.alloc(), program, WIDE_INPUT, 3, line);
    }
}
