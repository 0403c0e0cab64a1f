//! What inputs are refused for, and which refusal comes first.

use crate::answers::refused;
use crate::texts::{input, program};
use index_spaces::SpaceKind;
use std::alloc::Global;
use std::test::Fail;

// What an input of a program is refused for: the kind, the first letter of the name, and the value; nothing where it fits.
// The statements of the program stand on lines of their own, where some are told.
fn refusal(
    alloc: Global,
    declared: &[u8],
    lines: &[u8],
    numbers: &[u32],
    given: &[u8],
) -> Result<Option<(SpaceKind, u8, u64)>, Fail> {
    let input = input(alloc, given, &[], &[])?;
    let program = program(alloc, declared, lines, numbers)?;
    Ok(refused(alloc, &program, &input)?)
}

// Three segments of ao in pieces, two of mo in no pieces.
const GIVEN: &[u8] = b"const n = 3\nsegments ao 2 3 1\n";

const RANGES: [(&[u8], Option<(SpaceKind, u8, u64)>); 13] = [
    (b"aoindex i = 1, 3\n", None),
    (b"aoindex i = 1, 4\n", Some((SpaceKind::NoSegment, b'i', 4))),
    (b"aoindex i = 0, 3\n", Some((SpaceKind::NoSegment, b'i', 0))),
    (b"aoindex i = 0, 9\n", Some((SpaceKind::NoSegment, b'i', 0))),
    (b"aoindex i = 9, 3\n", None),
    (b"aoindex i = 9, 4\n", Some((SpaceKind::NoSegment, b'i', 4))),
    (
        b"aoindex i = 1, 18446744073709551615\n",
        Some((SpaceKind::NoSegment, b'i', u64::MAX)),
    ),
    (
        b"moaindex i = 1, 1\n",
        Some((SpaceKind::NoSegment, b'i', 0)),
    ),
    (b"index i = 1, 4096\n", None),
    (
        b"index i = 1, 4097\n",
        Some((SpaceKind::NoSegment, b'i', 4097)),
    ),
    // Pieces.
    (b"aoindex i = 1, 2\nsubindex j of i\n", None),
    (b"index i = 1, 2\nsubindex j of i\n", None),
    (
        b"moindex i = 1, 2\nsubindex j of i\n",
        Some((SpaceKind::NoSegment, b'j', 0)),
    ),
];

#[test]
fn a_range_has_segments_of_its_kind_and_a_subindex_has_pieces(rt: HostRuntime) -> Result<(), Fail> {
    for (lines, want) in RANGES {
        assert_eq!(rt; refusal(rt.alloc(), b"", lines, &[], GIVEN)?, want);
    }
    Ok(())
}

const CONSTANTS: [(&[u8], &[u8], Option<(SpaceKind, u8, u64)>); 3] = [
    (
        b"aoindex i = 1, n\n",
        b"const n = 3\nsegments ao 2 3 1\n",
        None,
    ),
    (
        b"aoindex i = 1, n\n",
        b"const n = 4\nsegments ao 2 3 1\n",
        Some((SpaceKind::NoSegment, b'i', 4)),
    ),
    (
        b"aoindex i = 1, m\n",
        b"const n = 3\nsegments ao 2 3 1\n",
        Some((SpaceKind::NoConstant, b'i', 0)),
    ),
];

#[test]
fn constants_are_given(rt: HostRuntime) -> Result<(), Fail> {
    for (lines, given, want) in CONSTANTS {
        assert_eq!(rt; refusal(rt.alloc(), b"", lines, &[], given)?, want);
    }
    Ok(())
}

// Two segments of ao: a block of 256 times 256 elements is not too wide, one of 256 times 257 is.
const WIDE: &[u8] = b"const n = 3\nsegments ao 256 257\n";

const INDICES: &[u8] =
    b"aoindex i = 1, 1\naoindex j = 1, 2\nindex k = 1, 1024\nindex l = 1, 4096\n";

const SIZES: [(&[u8], Option<(SpaceKind, u8, u64)>); 5] = [
    (b"temp a(i,i)\n", None),
    (
        b"temp a(i,j)\n",
        Some((SpaceKind::BlockTooWide, b'a', 65792)),
    ),
    (b"temp a(k,l)\n", None),
    (b"static a(k,k)\n", None),
    (
        b"static a(k,l)\n",
        Some((SpaceKind::TooManyBlocks, b'a', 4194304)),
    ),
];

#[test]
fn arrays_are_not_too_large(rt: HostRuntime) -> Result<(), Fail> {
    for (lines, want) in SIZES {
        assert_eq!(rt; refusal(rt.alloc(), INDICES, lines, &[], WIDE)?, want);
    }
    Ok(())
}

// Sixteen local arrays of 1,024 times 1,024 blocks, and one array more.
const SIXTEEN: &[u8] = b"index k = 1, 1024\n\
    local a0(k,k)\nlocal a1(k,k)\nlocal a2(k,k)\nlocal a3(k,k)\n\
    local a4(k,k)\nlocal a5(k,k)\nlocal a6(k,k)\nlocal a7(k,k)\n\
    local a8(k,k)\nlocal a9(k,k)\nlocal a10(k,k)\nlocal a11(k,k)\n\
    local a12(k,k)\nlocal a13(k,k)\nlocal a14(k,k)\nlocal a15(k,k)\n";

const SEVENTEENTH: [(&[u8], Option<(SpaceKind, u8, u64)>); 2] = [
    (
        b"local b(k,k)\n",
        Some((SpaceKind::TooManyBlocks, b'b', 17825792)),
    ),
    (b"static b(k,k)\n", None),
];

#[test]
fn the_arrays_of_a_kind_are_not_too_many_together(rt: HostRuntime) -> Result<(), Fail> {
    for (lines, want) in SEVENTEENTH {
        assert_eq!(rt; refusal(rt.alloc(), SIXTEEN, lines, &[], GIVEN)?, want);
    }
    Ok(())
}

const NESTED: &[u8] = b"aoindex i = 1, 2\naoindex j = 1, 3\nsubindex s of j\naoindex e = 9, 3\n\
    distributed d(i)\nlocal l(i,i)\n";

// A block on line 30 and slots behind it on line 20, as no text has them.
const WITHIN: [(&[u8], Option<(SpaceKind, u8, u64)>); 5] = [
    (b"get d(i)\nallocate l(*,e)\n", None),
    (
        b"get d(j)\nallocate l(*,i)\n",
        Some((SpaceKind::NotWithin, b'j', 30)),
    ),
    (
        b"get d(i)\nallocate l(*,j)\n",
        Some((SpaceKind::NotWithin, b'j', 20)),
    ),
    (
        b"get d(s)\nallocate l(*,j)\n",
        Some((SpaceKind::NotWithin, b'j', 20)),
    ),
    (
        b"get d(s)\nallocate l(*,i)\n",
        Some((SpaceKind::NotWithin, b's', 30)),
    ),
];

#[test]
fn indices_lie_within_the_declared_ones(rt: HostRuntime) -> Result<(), Fail> {
    for (lines, want) in WITHIN {
        assert_eq!(rt; refusal(rt.alloc(), NESTED, lines, &[30, 20], GIVEN)?, want);
    }
    Ok(())
}

const BOXED: &[u8] = b"index k = 1, 4096\nindex h = 1, 4080\nindex g = 1, 257\n\
    aoindex i = 1, 2\naoindex j = 1, 3\ndistributed d(i)\n";

// A pardo on a line of its own and a block on line 30; `k` has 4,096 segments, `h` 16 less, `j` is not within the `i` of `d(i)`.
const BOXES: [(&[u8], u32, Option<(SpaceKind, u8, u64)>); 4] = [
    (b"pardo h, k, g\nendpardo\nget d(i)\n", 20, None),
    (
        b"pardo k, k, g\nendpardo\nget d(i)\n",
        20,
        Some((SpaceKind::TooManyBlocks, b'k', 4096 * 4096 * 257)),
    ),
    (
        b"pardo k, k, g\nendpardo\nget d(j)\n",
        30,
        Some((SpaceKind::NotWithin, b'j', 30)),
    ),
    (
        b"pardo k, k, g\nendpardo\nget d(j)\n",
        31,
        Some((SpaceKind::NotWithin, b'j', 30)),
    ),
];

#[test]
fn the_box_of_a_pardo_is_not_too_large(rt: HostRuntime) -> Result<(), Fail> {
    for (lines, line, want) in BOXES {
        assert_eq!(rt;
            refusal(rt.alloc(), BOXED, lines, &[line, 30], GIVEN)?,
            want
        );
    }
    Ok(())
}
