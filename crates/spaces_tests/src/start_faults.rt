//! What start values are refused for, and which refusal comes first.

use crate::answers::refused;
use crate::texts::{input, program};
use index_spaces::SpaceKind;
use std::alloc::Global;
use std::test::Fail;

// What start values on lines of their own are refused for: the kind, the first letter of the name, and the value; nothing
// where they fit. The statements of the program stand on line 20.
fn refusal(
    alloc: Global,
    declared: &[u8],
    lines: &[u8],
    given: &[u8],
    scalars: &[u32],
    blocks: &[u32],
) -> Result<Option<(SpaceKind, u8, u64)>, Fail> {
    let input = input(alloc, given, scalars, blocks)?;
    let program = program(alloc, declared, lines, &[20])?;
    Ok(refused(alloc, &program, &input)?)
}

const SCALARS: [(&[u8], Option<(SpaceKind, u8, u64)>); 4] = [
    (b"const n = 3\nsegments ao 2 3 1\nscalar x = 5\n", None),
    (
        b"const n = 3\nsegments ao 2 3 1\nscalar y = 5\n",
        Some((SpaceKind::BadStart, b'y', 7)),
    ),
    (
        b"const n = 3\nsegments ao 2 3 1\nscalar z = 5\n",
        Some((SpaceKind::BadStart, b'z', 7)),
    ),
    (
        b"const n = 3\nsegments ao 2 3 1\nscalar u = 5\n",
        Some((SpaceKind::BadStart, b'u', 7)),
    ),
];

#[test]
fn start_values_have_places(rt: HostRuntime) -> Result<(), Fail> {
    for (given, want) in SCALARS {
        assert_eq!(rt; refusal(rt.alloc(), b"", b"", given, &[7], &[])?, want);
    }
    Ok(())
}

// Arrays of four kinds over the segments 2 and 3 of ao.
const ARRAYS: &[u8] = b"aoindex i = 2, 3\nstatic a(i)\nserved v(i)\ntemp t(i)\ndistributed d(i)\n";

const BLOCKS: [(&[u8], Option<(SpaceKind, u8, u64)>); 9] = [
    (b"const n = 3\nsegments ao 2 3 1\nblock a 3 = 1\n", None),
    (b"const n = 3\nsegments ao 2 3 1\nblock a 2 = 1 2 3\n", None),
    (b"const n = 3\nsegments ao 2 3 1\nblock v 2 = 1 2 3\n", None),
    (
        b"const n = 3\nsegments ao 2 3 1\nblock a 2 = 1 2\n",
        Some((SpaceKind::BadStart, b'a', 6)),
    ),
    (
        b"const n = 3\nsegments ao 2 3 1\nblock a 1 = 1 2\n",
        Some((SpaceKind::BadStart, b'a', 6)),
    ),
    (
        b"const n = 3\nsegments ao 2 3 1\nblock a 4 = 1\n",
        Some((SpaceKind::BadStart, b'a', 6)),
    ),
    (
        b"const n = 3\nsegments ao 2 3 1\nblock t 2 = 1 2 3\n",
        Some((SpaceKind::BadStart, b't', 6)),
    ),
    (
        b"const n = 3\nsegments ao 2 3 1\nblock d 2 = 1 2 3\n",
        Some((SpaceKind::BadStart, b'd', 6)),
    ),
    (
        b"const n = 3\nsegments ao 2 3 1\nblock x 2 = 1 2 3\n",
        Some((SpaceKind::BadStart, b'x', 6)),
    ),
];

#[test]
fn blocks_of_start_values_are_whole(rt: HostRuntime) -> Result<(), Fail> {
    for (given, want) in BLOCKS {
        assert_eq!(rt; refusal(rt.alloc(), ARRAYS, b"", given, &[], &[6])?, want);
    }
    Ok(())
}

// Two scalars and a block that have no place, each on a line of its own.
const BAD: &[u8] = b"const n = 3\nsegments ao 2 3 1\nscalar q = 5\nscalar u = 5\nblock w 1 = 1\n";

#[test]
fn of_two_bad_lines_the_first_is_told(rt: HostRuntime) -> Result<(), Fail> {
    for (scalar, block, letter) in [(5, 6, b'u'), (6, 5, b'w')] {
        let want = Some((SpaceKind::BadStart, letter, 5));
        assert_eq!(rt;
            refusal(rt.alloc(), b"", b"", BAD, &[8, scalar], &[block])?,
            want
        );
    }
    Ok(())
}

// An input with a scalar that has no place, on line 5.
const NO_PLACE: &[u8] = b"const n = 3\nsegments ao 2 3 257\nscalar u = 5\n";

const ROUNDS: [(&[u8], Option<(SpaceKind, u8, u64)>); 4] = [
    (
        b"aoindex i = 1, 2\naoindex j = 1, 4\nstatic a(j,j)\nget a(j,i)\n",
        Some((SpaceKind::NoSegment, b'j', 4)),
    ),
    (
        b"aoindex i = 1, 2\naoindex j = 1, 3\nstatic a(j,j)\nget a(j,i)\n",
        Some((SpaceKind::BlockTooWide, b'a', 66049)),
    ),
    (
        b"aoindex i = 1, 2\naoindex j = 1, 3\nstatic a(i,i)\nget a(j,i)\n",
        Some((SpaceKind::NotWithin, b'j', 20)),
    ),
    (
        b"aoindex i = 1, 2\naoindex j = 1, 3\nstatic a(i,i)\nget a(i,i)\n",
        Some((SpaceKind::BadStart, b'u', 5)),
    ),
];

#[test]
fn the_rounds_follow_one_another(rt: HostRuntime) -> Result<(), Fail> {
    for (lines, want) in ROUNDS {
        assert_eq!(rt; refusal(rt.alloc(), b"", lines, NO_PLACE, &[5], &[])?, want);
    }
    Ok(())
}
