//! The first fault of tables that are no program's.

use crate::changed::changed;
use sial_syntax::Text;
use sip_tables::{Instruction, Operation, Tables};
use std::test::Fail;
use table_verify::{VerifyFault, unflatten};

/// Where the last procedure's first instruction stands before the code.
const ENTRY: usize = 5;

/// Where the number of the last procedure's name stands before the code.
const NAME: usize = 9;

#[test]
fn each_wrong_number_has_its_fault(rt: HostRuntime) -> Result<(), Fail> {
    for (edits, before, want) in [
        // a pardo jumps past its end, and its end into the loop
        (
            [(0, 11, 4)].as_slice(),
            [].as_slice(),
            VerifyFault::Target { instruction: 0 },
        ),
        (
            [(3, 11, 1)].as_slice(),
            [].as_slice(),
            VerifyFault::Target { instruction: 3 },
        ),
        // a loop jumps to its end, or into another statement, and its end to its body
        (
            [(4, 11, 6)].as_slice(),
            [].as_slice(),
            VerifyFault::Target { instruction: 4 },
        ),
        (
            [(4, 11, 9)].as_slice(),
            [].as_slice(),
            VerifyFault::Target { instruction: 4 },
        ),
        (
            [(6, 11, 5)].as_slice(),
            [].as_slice(),
            VerifyFault::Target { instruction: 6 },
        ),
        // an `if` jumps to its `else`, and that to its end
        (
            [(7, 11, 9)].as_slice(),
            [].as_slice(),
            VerifyFault::Target { instruction: 7 },
        ),
        (
            [(9, 11, 11)].as_slice(),
            [].as_slice(),
            VerifyFault::Target { instruction: 9 },
        ),
        // calls lead to the other procedure, or before one
        (
            [(10, 11, 13)].as_slice(),
            [].as_slice(),
            VerifyFault::Target { instruction: 10 },
        ),
        (
            [(15, 11, 12)].as_slice(),
            [].as_slice(),
            VerifyFault::Target { instruction: 15 },
        ),
        // a procedure is said to start elsewhere
        (
            [].as_slice(),
            [(ENTRY, 14)].as_slice(),
            VerifyFault::Target { instruction: 0 },
        ),
        // a `where` and an end on another line, an end with a line, a stop for a return
        (
            [(1, 7, 99)].as_slice(),
            [].as_slice(),
            VerifyFault::Nest { instruction: 1 },
        ),
        (
            [(3, 7, 99)].as_slice(),
            [].as_slice(),
            VerifyFault::Nest { instruction: 3 },
        ),
        (
            [(12, 7, 1)].as_slice(),
            [].as_slice(),
            VerifyFault::Nest { instruction: 12 },
        ),
        (
            [(14, 0, 1)].as_slice(),
            [].as_slice(),
            VerifyFault::Nest { instruction: 14 },
        ),
        // an index, an array, a scalar and a procedure that are not there
        (
            [(0, 17, 1)].as_slice(),
            [].as_slice(),
            VerifyFault::Id { instruction: 0 },
        ),
        (
            [(1, 15, 1)].as_slice(),
            [].as_slice(),
            VerifyFault::Id { instruction: 1 },
        ),
        (
            [(2, 15, 1)].as_slice(),
            [].as_slice(),
            VerifyFault::Id { instruction: 2 },
        ),
        (
            [(8, 15, 1)].as_slice(),
            [].as_slice(),
            VerifyFault::Id { instruction: 8 },
        ),
        (
            [(10, 15, 2)].as_slice(),
            [].as_slice(),
            VerifyFault::Id { instruction: 10 },
        ),
        // a text that was printed before, and one that is not there
        (
            [(13, 19, 7)].as_slice(),
            [].as_slice(),
            VerifyFault::Id { instruction: 13 },
        ),
        (
            [(5, 19, 9)].as_slice(),
            [].as_slice(),
            VerifyFault::Id { instruction: 5 },
        ),
        // a procedure has the name of the one before
        (
            [].as_slice(),
            [(NAME, 5)].as_slice(),
            VerifyFault::Id { instruction: 0 },
        ),
        // the first of several
        (
            [(9, 11, 11), (4, 11, 6)].as_slice(),
            [].as_slice(),
            VerifyFault::Target { instruction: 4 },
        ),
        (
            [(2, 15, 1), (4, 11, 6)].as_slice(),
            [].as_slice(),
            VerifyFault::Id { instruction: 2 },
        ),
        (
            [(3, 7, 99), (2, 15, 1)].as_slice(),
            [].as_slice(),
            VerifyFault::Id { instruction: 2 },
        ),
        (
            [(4, 11, 6), (3, 7, 99)].as_slice(),
            [].as_slice(),
            VerifyFault::Nest { instruction: 3 },
        ),
        // two in one instruction, and two outside of the code
        (
            [(4, 11, 6), (4, 15, 1)].as_slice(),
            [].as_slice(),
            VerifyFault::Target { instruction: 4 },
        ),
        (
            [(0, 11, 4), (0, 17, 1)].as_slice(),
            [].as_slice(),
            VerifyFault::Target { instruction: 0 },
        ),
        (
            [].as_slice(),
            [(ENTRY, 14), (NAME, 5)].as_slice(),
            VerifyFault::Target { instruction: 0 },
        ),
        // from where nesting breaks on nothing else is told
        (
            [(11, 7, 99), (9, 11, 11)].as_slice(),
            [].as_slice(),
            VerifyFault::Nest { instruction: 11 },
        ),
        (
            [(11, 7, 99), (13, 19, 7)].as_slice(),
            [].as_slice(),
            VerifyFault::Nest { instruction: 11 },
        ),
    ] {
        let tables = changed(rt.alloc(), edits, before)?;
        assert_eq!(rt; unflatten(rt.alloc(), &tables).err(), Some(want));
    }
    Ok(())
}

#[test]
fn names_and_texts_are_told_outside_of_the_code(rt: HostRuntime) -> Result<(), Fail> {
    for (name, others, stops, want) in [
        (b"p".as_slice(), 0, true, None),
        // a text that nothing uses
        (b"p", 1, true, Some(VerifyFault::Id { instruction: 0 })),
        // a reserved word, and a capital letter
        (b"endif", 0, true, Some(VerifyFault::Id { instruction: 0 })),
        (b"P", 0, true, Some(VerifyFault::Id { instruction: 0 })),
        // nesting breaks at the same instruction
        (b"p", 0, false, Some(VerifyFault::Nest { instruction: 0 })),
        (b"p", 1, false, Some(VerifyFault::Nest { instruction: 0 })),
    ] {
        let mut texts = Vec::new(rt.alloc());
        for turn in 0..=others {
            texts.push(Text::from_slice(rt.alloc(), name)?)?;
        }
        let mut code = Vec::new(rt.alloc());
        code.push(Instruction {
            line: 0,
            operation: if stops {
                Operation::Stop
            } else {
                Operation::Return
            },
        })?;
        let tables = Tables::new(
            texts,
            Vec::new(rt.alloc()),
            Vec::new(rt.alloc()),
            Vec::new(rt.alloc()),
            Vec::new(rt.alloc()),
            code,
        );
        assert_eq!(rt; unflatten(rt.alloc(), &tables).err(), want);
    }
    Ok(())
}
