//! The steps of programs.

use sequential_costs::sequential_steps;
use sip_files::MemoryFiles;
use sip_grant::load_granted;
use std::alloc::Global;
use std::process::Abort;

// The steps of a program with an input.
fn steps(rt: &impl Abort, alloc: Global, program: &[u8], input: &[u8]) -> u64 {
    let mut files = MemoryFiles::new(alloc);
    assert!(rt; files.put("program", program).is_ok());
    assert!(rt; files.put("input", input).is_ok());
    let granted = load_granted(alloc, &mut files, "program", "input")
        .ok()
        .expect(rt, "the rules grant it");
    sequential_steps(alloc, &granted)
        .ok()
        .expect(rt, "memory is found")
}

const AO: &[u8] = b"segments ao 2 5\nsubsegment ao 2\n";

#[test]
fn steps_are_those_counted_by_hand(rt: HostRuntime) {
    for (program, input, counted) in [
        // nothing
        (b"sial n\nendsial n\n".as_slice(), b"".as_slice(), 0),
        // two turns over four statements
        (
            b"sial n\naoindex i = 1, 2\nstatic a(i)\nscalar s\ndo i\na(i) = 3\na(i) += a(i)\ns = a(i) * a(i)\nexecute print_scalar s\nenddo i\nendsial n\n",
            b"segments ao 2 1\n",
            1 + 2 * (1 + 4),
        ),
        // a pardo over sixteen numbers with nothing inside
        (
            b"sial n\nindex i = 1, 16\npardo i\nendpardo i\nendsial n\n",
            b"",
            2 + 16,
        ),
        // served blocks: two statements, a barrier, and a loop in which one of four statements reads a block
        (
            b"sial n\nindex i = 1, 3\ntemp t(i)\nserved v(i)\nscalar s\npardo i\nexecute compute_integrals t(i)\nprepare v(i) = t(i)\nendpardo i\nserver_barrier\ndo i\nrequest v(i) i\nt(i) = 1\ns = t(i) * v(i)\nexecute print_scalar s\nenddo i\nendsial n\n",
            b"",
            (2 + 3 * (1 + 5)) + 3 + (1 + 3 * (1 + (3 + 1 + 4 + 1))),
        ),
        // at most three pieces in a segment of two
        (
            b"sial n\naoindex i = 1, 2\nsubindex j of i\nscalar s\ndo i\ndo j in i\ns = 1\nenddo j\nenddo i\nendsial n\n",
            AO,
            1 + 2 * (1 + (1 + 3 * (1 + 1))),
        ),
        // both branches count
        (
            b"sial n\nscalar s\nif s > 0\ns = 1\ns = 2\nelse\ns = 3\nendif\nif s > 1\ns = 1\nendif\nendsial n\n",
            b"",
            (2 + 3) + (2 + 1),
        ),
        // a procedure that calls another twice
        (
            b"sial n\nscalar s\nproc p\ns = 1\nendproc p\nproc q\ncall p\ncall p\nendproc q\ncall q\nendsial n\n",
            b"",
            2 + 2 * (2 + 1),
        ),
    ] {
        assert_eq!(rt; steps(&rt, rt.alloc(), program, input), counted);
    }
}

const FIVE: &[u8] =
    b"sial n\nindex a = 1, 4096\nindex b = 1, 4096\nindex c = 1, 4096\nindex d = 1, 4096\nindex e = 1, 4096\ndo a\ndo b\ndo c\ndo d\ndo e\nenddo e\nenddo d\nenddo c\nenddo b\nenddo a\nendsial n\n";

const SIX: &[u8] =
    b"sial n\nindex a = 1, 4096\nindex b = 1, 4096\nindex c = 1, 4096\nindex d = 1, 4096\nindex e = 1, 4096\nindex f = 1, 4096\ndo a\ndo b\ndo c\ndo d\ndo e\ndo f\nenddo f\nenddo e\nenddo d\nenddo c\nenddo b\nenddo a\nendsial n\n";

#[test]
fn a_number_above_the_limit_is_the_next_one(rt: HostRuntime) {
    assert_eq!(rt;
        steps(&rt, rt.alloc(), FIVE, b""),
        1_153_484_592_032_784_385
    );
    assert_eq!(rt; steps(&rt, rt.alloc(), SIX, b""), 4_611_686_018_427_387_905);
}
