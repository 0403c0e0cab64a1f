//! Worked programs, parsed.

use crate::texts;
use sial_parser::{ParseFault, parse};
use std::alloc::Global;
use std::test::Fail;

// How many indices, arrays, scalars, procedures and statements of its body a program has, or its fault.
fn parts(alloc: Global, text: &[u8]) -> Result<[usize; 5], ParseFault> {
    let program = parse(alloc, text)?;
    Ok([
        program.indices.len(),
        program.arrays.len(),
        program.scalars.len(),
        program.procs.len(),
        program.body.len(),
    ])
}

#[test]
fn worked_programs_have_their_parts(rt: HostRuntime) -> Result<(), Fail> {
    for (text, want) in [
        (texts::FIRST, [1, 1, 1, 0, 1]),
        (texts::WRAP, [0, 0, 1, 0, 2]),
        (texts::SMALL, [3, 7, 3, 0, 9]),
        (texts::CLASH, [2, 2, 0, 0, 2]),
        (texts::APART, [1, 2, 0, 0, 2]),
        (texts::ORDER, [1, 2, 0, 0, 4]),
        (texts::PART, [1, 0, 1, 0, 2]),
        (texts::GONE, [1, 2, 0, 0, 3]),
        (texts::AGAIN, [1, 2, 0, 0, 5]),
        (texts::TWICE, [1, 2, 0, 0, 2]),
        (texts::CHUNKS, [1, 0, 0, 0, 1]),
        (texts::TIGHT, [1, 4, 1, 0, 6]),
        (texts::SHAPE, [2, 5, 0, 0, 0]),
        (texts::DISK, [1, 2, 1, 0, 3]),
        (texts::BIG, [6, 8, 2, 0, 9]),
    ] {
        assert_eq!(rt; parts(rt.alloc(), text), Ok(want));
    }
    Ok(())
}
