//! The spaces and start values of a small program, as an input gives them.

use crate::answers::resolved;
use crate::texts::{input, program};
use index_spaces::{Spaces, Start, StartBlock};
use std::alloc::Global;
use std::test::Fail;

// `i` over segments 2 to 3 of 2, 5, 1, its subindex `s`, `k` from 2 to 4; `a(i,k)` static, `v(k)` served.
const SMALL: &[u8] =
    b"aoindex i = 2, 3\nsubindex s of i\nindex k = 2, 4\nstatic a(i,k)\nserved v(k)\n";

// The spaces and start values that an input gives that program.
fn given(alloc: Global, text: &[u8]) -> Result<Option<(Spaces, Start)>, Fail> {
    let input = input(alloc, text, &[], &[])?;
    let program = program(alloc, SMALL, b"", &[])?;
    Ok(resolved(alloc, &program, &input)?)
}

// The first position and the length of a segment, where there is such a segment.
fn segment(spaces: &Spaces, index: u16, number: u32) -> (u32, u32) {
    if number == 0 || number > spaces.segments(spaces.kind(index)) {
        return (0, 0);
    }
    spaces.segment(index, number)
}

// The number of pieces, and the last piece, of a subindex in a segment.
fn last_piece(spaces: &Spaces, sub: u16, number: u32) -> (u32, (u32, u32)) {
    let kind = spaces.kind(sub);
    if number == 0 || number > spaces.segments(kind) || spaces.piece_len(kind) == 0 {
        return (0, (0, 0));
    }
    let pieces = spaces.pieces(sub, number);
    if pieces == 0 {
        return (0, (0, 0));
    }
    (pieces, spaces.piece(sub, number, pieces))
}

// The array, the number and the first element of a block of start values.
fn shown(blocks: &[StartBlock], place: usize) -> (u16, u32, u64) {
    match blocks.get(place) {
        Some(block) => (
            block.array,
            block.number,
            block.words.as_slice().first().copied().unwrap_or(0),
        ),
        None => (0, 0, 0),
    }
}

// The ranges of the indices, and how many tuples `i` and `k` have together.
fn ranges(spaces: &Spaces) -> ([(u32, u32); 3], u64) {
    let ranges = [spaces.range(0), spaces.range(1), spaces.range(2)];
    (ranges, spaces.box_len(&[0, 2]))
}

// Two segments of `i`, and one of `k`.
fn segments(spaces: &Spaces) -> [(u32, u32); 3] {
    [
        segment(spaces, 0, 2),
        segment(spaces, 0, 3),
        segment(spaces, 2, 4),
    ]
}

const WITHOUT_STARTS: &[u8] = b"const n = 3\nsegments ao 2 5 1\n";

#[test]
fn indices_have_the_segments_of_their_input(rt: HostRuntime) -> Result<(), Fail> {
    match given(rt.alloc(), WITHOUT_STARTS)? {
        Some((spaces, _start)) => {
            assert_eq!(rt; ranges(&spaces), ([(2, 2), (1, 0), (2, 3)], 6));
            assert_eq!(rt; segments(&spaces), [(3, 5), (8, 1), (4, 1)]);
            assert_eq!(rt; last_piece(&spaces, 1, 2), (3, (7, 1)));
        }
        None => assert_eq!(rt; 1, 0),
    }
    Ok(())
}

// The numbers of the scalars, how many blocks begin with others than zeros, and the first two of these.
fn starts(start: &Start) -> (&[u64], usize, [(u16, u32, u64); 2]) {
    let blocks = start.blocks.as_slice();
    let first = [shown(blocks, 0), shown(blocks, 1)];
    (start.scalars.as_slice(), blocks.len(), first)
}

const WITH_STARTS: &[u8] =
    b"const n = 3\nsegments ao 2 5 1\nscalar x = 18446744073709551615\nblock v 4 = 7\nblock a 3 3 = 8\n";

// Of the two scalars `x` the first is meant.
#[test]
fn start_values_stand_at_their_places(rt: HostRuntime) -> Result<(), Fail> {
    for (text, first, count, blocks) in [
        (WITHOUT_STARTS, 0, 0, [(0, 0, 0), (0, 0, 0)]),
        (WITH_STARTS, u64::MAX, 2, [(1, 2, 7), (0, 4, 8)]),
    ] {
        match given(rt.alloc(), text)? {
            Some((_spaces, start)) => {
                let scalars = [first, 0, 0, 0];
                assert_eq!(rt; starts(&start), (scalars.as_slice(), count, blocks));
            }
            None => assert_eq!(rt; 1, 0),
        }
    }
    Ok(())
}
