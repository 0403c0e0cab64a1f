//! Schedules and placements, read from their texts.

use input_text::{InputFault, read_numbers};
use std::alloc::Global;
use std::test::Fail;

// How many numbers a text gives where three are wanted at most, and the last of them, or its fault.
fn last(alloc: Global, text: &[u8]) -> Result<(usize, u32), InputFault> {
    if text.len() > 1_048_576 {
        return Err(InputFault::OutOfMemory);
    }
    let numbers = read_numbers(alloc, text, 3)?;
    Ok((numbers.len(), numbers.last().copied().unwrap_or(0)))
}

#[test]
fn each_fault_of_numbers_has_its_line(rt: HostRuntime) -> Result<(), Fail> {
    for (text, want) in [
        (b"".as_slice(), Ok((0, 0))),
        (b"# none\n\n", Ok((0, 0))),
        (b"1 2\t3", Ok((3, 3))),
        (b"1\r\n\n4294967295 # the greatest", Ok((2, 4_294_967_295))),
        (b"1\n4294967296", Err(InputFault::TooWide { line: 2 })),
        (
            b"99999999999999999999",
            Err(InputFault::TooWide { line: 1 }),
        ),
        (b"4294967296 x", Err(InputFault::BadLine { line: 1 })),
        (b"1 -2", Err(InputFault::BadLine { line: 1 })),
        (b"1.0", Err(InputFault::BadLine { line: 1 })),
        (b"1\n2 3\n4\nx", Err(InputFault::TooMany { line: 3 })),
        (b"1 2 3 4294967296", Err(InputFault::TooWide { line: 1 })),
        (b"1 2 3 4 x", Err(InputFault::BadLine { line: 1 })),
    ] {
        assert_eq!(rt; last(rt.alloc(), text), want);
    }
    Ok(())
}
