//! Inputs, read from their texts.

use input_text::{InputFault, read_input};
use sip_input::Input;
use std::alloc::Global;
use std::test::Fail;

// How many constants, segment lines, subsegment lines, scalars and blocks a text gives, or its fault.
fn counted(alloc: Global, text: &[u8]) -> Result<[usize; 5], InputFault> {
    if text.len() > 1_048_576 {
        return Err(InputFault::OutOfMemory);
    }
    let input = read_input(alloc, text)?;
    Ok([
        input.constants.len(),
        input.segments.len(),
        input.pieces.len(),
        input.scalars.len(),
        input.blocks.len(),
    ])
}

fn bad(line: u32) -> Result<[usize; 5], InputFault> {
    Err(InputFault::BadLine { line })
}

fn wide(line: u32) -> Result<[usize; 5], InputFault> {
    Err(InputFault::TooWide { line })
}

fn twice(line: u32) -> Result<[usize; 5], InputFault> {
    Err(InputFault::Twice { line })
}

fn many(line: u32) -> Result<[usize; 5], InputFault> {
    Err(InputFault::TooMany { line })
}

#[test]
fn each_fault_of_an_input_has_its_line(rt: HostRuntime) -> Result<(), Fail> {
    for (text, want) in [
        (b"".as_slice(), Ok([0, 0, 0, 0, 0])),
        (b"\n # c\n\t\r\n", Ok([0, 0, 0, 0, 0])),
        (b"CONST A=5\r\nscalar a = 1", Ok([1, 0, 0, 1, 0])),
        (b"const a = 5\r", bad(1)),
        (b"const a = 18446744073709551615", Ok([1, 0, 0, 0, 0])),
        (b"const a = 18446744073709551616", wide(1)),
        (b"const a = -1", bad(1)),
        (b"const a = 1.0", bad(1)),
        (b"const a == 1", bad(1)),
        (b"const 1a = 1", bad(1)),
        (b"scalar s = - 18446744073709551615", Ok([0, 0, 0, 1, 0])),
        (b"scalar s = -18446744073709551616", wide(1)),
        (b"scalar s = --1", bad(1)),
        (b"\n\nsegments ao", bad(3)),
        (b"segments ao 0", bad(1)),
        (
            b"segments ao 1 1024\nsubsegment ao 1024",
            Ok([0, 1, 1, 0, 0]),
        ),
        (b"segments ao 1 1025", bad(1)),
        (b"segments ao 18446744073709551616", bad(1)),
        (b"segments index 1", bad(1)),
        (b"segments ao 1\nsegments mo 1\nsegments AO 2", twice(3)),
        (b"subsegment ao 1\nsubsegment ao 2", twice(2)),
        (b"block a 1 = 5-3", Ok([0, 0, 0, 0, 1])),
        (b"block a = 1", bad(1)),
        (b"block a 1 =", bad(1)),
        (b"block a 4294967295 = 1", Ok([0, 0, 0, 0, 1])),
        (b"block a 4294967296 = 1", bad(1)),
        (
            b"block a 1 2 = 1\nblock a 1 = 1\nblock a 12 = 1",
            Ok([0, 0, 0, 0, 3]),
        ),
        (b"block a 1 2 = 1\nblock a 1 = 1\nblock a 1 2 = 7", twice(3)),
        (b"block a 1 = 99999999999999999999 x", bad(1)),
        (b"scalar a = 1\nscalar a = 99999999999999999999\nx", wide(2)),
        (b"const a = 1\nscalar a = 1\nconst a = 1\nx", twice(3)),
        (b"x\nconst a = 1\nconst a = 1", bad(1)),
        (b"print \"x\"", bad(1)),
        (b"\xc3\xa9", bad(1)),
    ] {
        assert_eq!(rt; counted(rt.alloc(), text), want);
    }
    Ok(())
}

// A text of so many lines, each with its number between two parts.
fn lines(alloc: Global, first: &[u8], last: &[u8], count: u32) -> Result<Vec<u8>, Fail> {
    let mut text = Vec::new(alloc);
    for number in 0..count {
        text.extend_from_slice(first)?;
        text.extend_from_slice(format!(in alloc; "{number}")?.as_bytes())?;
        text.extend_from_slice(last)?;
    }
    Ok(text)
}

#[test]
fn limits_of_an_input_hold_at_their_edge(rt: HostRuntime) -> Result<(), Fail> {
    for (first, last, count, want) in [
        (
            b"const a".as_slice(),
            b"=1\n".as_slice(),
            256,
            Ok([256, 0, 0, 0, 0]),
        ),
        (b"const a", b"=1\n", 257, many(257)),
        (b"block a ", b"=1\n", 65_536, Ok([0, 0, 0, 0, 65_536])),
        (b"block a ", b"=1\n", 65_537, many(65_537)),
    ] {
        let text = lines(rt.alloc(), first, last, count)?;
        assert_eq!(rt; counted(rt.alloc(), &text), want);
    }
    Ok(())
}

// The segment lines of one kind with so many segments.
fn segments(alloc: Global, count: usize) -> Result<Vec<u8>, Fail> {
    let mut text = Vec::from_slice(alloc, b"segments ao")?;
    for _ in 0..count {
        text.extend_from_slice(b" 1")?;
    }
    Ok(text)
}

#[test]
fn a_kind_has_at_most_4096_segments(rt: HostRuntime) -> Result<(), Fail> {
    for (count, want) in [(4096, Ok([0, 1, 0, 0, 0])), (4097, many(1))] {
        let text = segments(rt.alloc(), count)?;
        assert_eq!(rt; counted(rt.alloc(), &text), want);
    }
    Ok(())
}

// The start values that a text gives: of its first scalar, and of its first block.
fn starts(input: &Input) -> (u64, &[u64]) {
    let scalar = match input.scalars.first() {
        Some(line) => line.value,
        None => 0,
    };
    match input.blocks.first() {
        Some(line) => (scalar, line.elements.as_slice()),
        None => (scalar, &[]),
    }
}

#[test]
fn a_number_behind_a_minus_is_its_opposite(rt: HostRuntime) -> Result<(), Fail> {
    let text = b"scalar s = -1\nblock h 2 1 = 4 - 0 -3";
    match read_input(rt.alloc(), text) {
        Ok(input) => {
            let (scalar, elements) = starts(&input);
            assert_eq!(rt; scalar, u64::MAX);
            assert_eq!(rt; elements, [4, 0, u64::MAX - 2].as_slice());
        }
        Err(_) => return Err(Fail::from(std::alloc::AllocError)),
    }
    Ok(())
}
