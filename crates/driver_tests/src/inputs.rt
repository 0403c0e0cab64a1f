//! Inputs: those that are none, those that don't fit, and what constants and start values do.

use crate::calls::{PROGRAM, WORDS, expect, expect_status, files_with};
use sip_files::MemorySink;

// Texts of inputs with a fault, each with its line.
const FAULTS: [(&[u8], &[u8]); 12] = [
    (b"segments ao", b"sip: input line 1: BadLine\n"),
    (b"segments ao 2 0\n", b"sip: input line 1: BadLine\n"),
    (b"segments ao 2 1025\n", b"sip: input line 1: BadLine\n"),
    (b"\nsegments index 2\n", b"sip: input line 2: BadLine\n"),
    (
        b"segments ao 2 1\nscalar s\n",
        b"sip: input line 2: BadLine\n",
    ),
    (
        b"const n = 18446744073709551616\n",
        b"sip: input line 1: TooWide\n",
    ),
    (
        b"scalar s = -18446744073709551616\n",
        b"sip: input line 1: TooWide\n",
    ),
    (
        b"block a 1 = 1 18446744073709551616\n",
        b"sip: input line 1: TooWide\n",
    ),
    (
        b"segments ao 18446744073709551616\n",
        b"sip: input line 1: BadLine\n",
    ),
    (
        b"segments ao 2 1\nsegments ao 2 1\n",
        b"sip: input line 2: Twice\n",
    ),
    (
        b"scalar s = 1\nscalar S = 2\n",
        b"sip: input line 2: Twice\n",
    ),
    (
        b"block a 1 = 1\nblock a 1 = 2\n",
        b"sip: input line 2: Twice\n",
    ),
];

#[test]
fn the_line_of_an_inputs_fault_is_told(rt: HostRuntime) {
    for (input, line) in FAULTS {
        expect_status(&rt, rt.alloc(), PROGRAM, input, 5, line);
    }
}

// Inputs that are none for the first program, each with its line.
const MISFITS: [(&[u8], &[u8]); 8] = [
    (b"", b"sip: space i 0: NoSegment\n"),
    (b"segments mo 2 1\n", b"sip: space i 0: NoSegment\n"),
    (b"segments ao 2\n", b"sip: space i 2: NoSegment\n"),
    (
        b"segments ao 2 1\nscalar t = 1\n",
        b"sip: space t 2: BadStart\n",
    ),
    (
        b"segments ao 2 1\nblock b 1 = 1 2\n",
        b"sip: space b 2: BadStart\n",
    ),
    (
        b"segments ao 2 1\nblock a 3 = 1 2\n",
        b"sip: space a 2: BadStart\n",
    ),
    (
        b"segments ao 2 1\nblock a 1 = 1 2 3\n",
        b"sip: space a 2: BadStart\n",
    ),
    (
        b"segments ao 2 1\nblock a 1 = 1\nscalar t = 1\n",
        b"sip: space a 2: BadStart\n",
    ),
];

#[test]
fn what_does_not_fit_is_told(rt: HostRuntime) {
    for (input, line) in MISFITS {
        expect_status(&rt, rt.alloc(), PROGRAM, input, 5, line);
    }
}

// Programs that an input doesn't fit, each with its line.
const UNFIT: [(&[u8], &[u8]); 7] = [
    (
        b"sial n\naoindex i = 1, nao\nendsial n\n",
        b"sip: space i 0: NoConstant\n",
    ),
    (
        b"sial n\naoindex i = 0, 1\nendsial n\n",
        b"sip: space i 0: NoSegment\n",
    ),
    (
        b"sial n\naoindex i = 1, 3\nendsial n\n",
        b"sip: space i 3: NoSegment\n",
    ),
    (
        b"sial n\naoindex i = 1, 1\nsubindex j of i\nendsial n\n",
        b"sip: space j 0: NoSegment\n",
    ),
    (
        b"sial n\naoindex i = 1, 1\naoindex j = 1, 2\nstatic a(i)\ndo j\na(j) = 1\nenddo j\nendsial n\n",
        b"sip: space j 6: NotWithin\n",
    ),
    (
        b"sial n\nindex k = 1, 4096\nstatic a(k, k)\nendsial n\n",
        b"sip: space a 16777216: TooManyBlocks\n",
    ),
    (
        b"sial n\nindex k = 1, 4096\nindex l = 1, 4096\nindex m = 1, 4096\npardo k, l, m\nendpardo\nendsial n\n",
        b"sip: space k 68719476736: TooManyBlocks\n",
    ),
];

#[test]
fn what_a_program_needs_is_told(rt: HostRuntime) {
    for (program, line) in UNFIT {
        expect_status(&rt, rt.alloc(), program, b"segments ao 2 1\n", 5, line);
    }
}

#[test]
fn a_block_is_not_too_wide(rt: HostRuntime) {
    let program = b"sial n\naoindex i = 1, 1\ntemp t(i, i)\nendsial n\n";
    let wide = b"sip: space t 66049: BlockTooWide\n";
    expect_status(&rt, rt.alloc(), program, b"segments ao 257\n", 5, wide);
    let first = b"sip: syntax line 0: FirstPath\n";
    expect_status(&rt, rt.alloc(), program, b"segments ao 256\n", 3, first);
}

const SUMS: &[u8] =
    b"sial n\naoindex i = 1, last\nstatic a(i)\nstatic b(i)\nscalar s\nscalar x\nexecute print_scalar x\nx += 2\nexecute print_scalar x\ndo i\na(i) += b(i)\ns = a(i) * b(i)\nexecute print_scalar s\nenddo i\nendsial n\n";

// Inputs of these sums, each with the lines that they print.
const STARTS: [(&[u8], &[u8]); 4] = [
    (b"const last = 1\nsegments ao 2\n", b"x 0\nx 2\ns 0\n"),
    (
        b"const last = 2\nsegments ao 2 1\nscalar x = 18446744073709551615\nblock a 1 = 1 2\nblock b 1 = 3 4\n",
        b"x 18446744073709551615\nx 1\ns 36\ns 0\n",
    ),
    (
        b"const last = 2\nsegments ao 2 1\nscalar x = -1\nblock b 2 = 5\n",
        b"x 18446744073709551615\nx 1\ns 0\ns 25\n",
    ),
    (
        b"const last = 1\nsegments ao 2\nblock b 1 = 5-3\nscalar x=-0\n",
        b"x 0\nx 2\ns 34\n",
    ),
];

#[test]
fn constants_and_start_values_are_used(rt: HostRuntime) {
    let alloc = rt.alloc();
    for (input, printed) in STARTS {
        let mut files = files_with(&rt, alloc, SUMS, input);
        let mut out = MemorySink::new(alloc);
        expect(&rt, alloc, &WORDS, &mut files, &mut out, 0, b"");
        assert_eq!(rt; out.bytes(), printed);
    }
}
