//! What the shape rules grant and refuse, and which fault comes first.

use crate::lines::put_on_lines;
use crate::texts::{DECLARED, parsed};
use shape_check::{ShapeFault, shapes};
use sial_syntax::Program;
use std::alloc::Global;
use std::test::Fail;

// What is wrong with the shape of a program, if anything.
fn judged(alloc: Global, program: &Program) -> Option<ShapeFault> {
    shapes(alloc, program).err()
}

// The same of the program of these lines; within a pardo the statements stand on lines of their own, where some are told.
fn fault_of(alloc: Global, lines: &[u8], numbers: &[u32]) -> Result<Option<ShapeFault>, Fail> {
    let mut program = parsed(alloc, DECLARED, lines)?;
    put_on_lines(program.body.as_mut_slice(), numbers);
    Ok(judged(alloc, &program))
}

const GRANTED: [&[u8]; 9] = [
    b"",
    b"pardo i, j\nget d(i)\nendpardo\n",
    b"pardo i, j\nt(j,i) = 3\nendpardo\n",
    b"pardo i, j\ndo ii in i\nc(ii) = d(i)\nenddo\nendpardo\n",
    // Declarations: a subindex of an index, and a temp over a subindex.
    b"temp x(jj)\nsubindex kk of i\n",
    // Conditions and slots.
    b"pardo i, j\nwhere j < 2\nendpardo\n",
    b"pardo i, j\nallocate l(*)\nendpardo\n",
    b"pardo i, j\nallocate l(j)\nendpardo\n",
    // A product to a scalar, over equal indices.
    b"pardo i, j\ns = t(i,j) * t(j,i)\nendpardo\n",
];

#[test]
fn programs_that_keep_the_rules_are_granted(rt: HostRuntime) -> Result<(), Fail> {
    for lines in GRANTED {
        assert_eq!(rt; fault_of(rt.alloc(), lines, &[])?, None);
    }
    Ok(())
}

const FAULTS: [(&[u8], ShapeFault); 18] = [
    (b"get d(i)\n", ShapeFault::Unbound { line: 15 }),
    (
        b"pardo i, j\ndo i\nenddo\nendpardo\n",
        ShapeFault::Rebound { line: 16 },
    ),
    (
        b"pardo i, j\nt(i,i) = 3\nendpardo\n",
        ShapeFault::Repeated { line: 16 },
    ),
    (
        b"pardo i, j\nget v(i)\nendpardo\n",
        ShapeFault::WrongKind { line: 16 },
    ),
    (
        b"pardo i, j\na(i) = t(i,j)\nendpardo\n",
        ShapeFault::WrongIndices { line: 16 },
    ),
    (
        b"pardo i, j\nd(i) = 3\nendpardo\n",
        ShapeFault::NotWritable { line: 16 },
    ),
    // In one block: an index that isn't bound, and another rank.
    (
        b"pardo i, j\nt(ii) = 3\nendpardo\n",
        ShapeFault::Unbound { line: 16 },
    ),
    // Another kind at a place that both lists have, and another rank.
    (
        b"pardo i, j\ndo m\nt(m) = 3\nenddo\nendpardo\n",
        ShapeFault::WrongKind { line: 17 },
    ),
    // Declarations have their own lines.
    (
        b"temp x(jj)\nsubindex kk of ii\n",
        ShapeFault::WrongKind { line: 16 },
    ),
    (
        b"local x(jj)\nsubindex kk of i\n",
        ShapeFault::WrongKind { line: 15 },
    ),
    (
        b"served x(ii)\nsubindex kk of ii\n",
        ShapeFault::WrongKind { line: 15 },
    ),
    // A procedure that nobody calls.
    (
        b"proc q\nget d(i)\nendproc\n",
        ShapeFault::Unbound { line: 16 },
    ),
    // Conditions have the line of their pardo.
    (
        b"pardo i, j\nwhere s < 2\nendpardo\n",
        ShapeFault::WrongKind { line: 15 },
    ),
    (
        b"pardo i, j\nwhere m < 2\nendpardo\n",
        ShapeFault::Unbound { line: 15 },
    ),
    // Slots.
    (
        b"pardo i, j\nallocate l(m)\nendpardo\n",
        ShapeFault::Unbound { line: 16 },
    ),
    (
        b"pardo i, j\nallocate a(*)\nendpardo\n",
        ShapeFault::WrongKind { line: 16 },
    ),
    (
        b"pardo i, j\nallocate t(*)\nendpardo\n",
        ShapeFault::WrongKind { line: 16 },
    ),
    // A product to a scalar.
    (
        b"pardo i, j\ns = t(i,j) * t(i)\nendpardo\n",
        ShapeFault::WrongIndices { line: 16 },
    ),
];

#[test]
fn each_rule_has_its_fault_and_line(rt: HostRuntime) -> Result<(), Fail> {
    for (lines, fault) in FAULTS {
        assert_eq!(rt; fault_of(rt.alloc(), lines, &[])?, Some(fault));
    }
    Ok(())
}

const TWO_FAULTS: [(&[u8], [u32; 2], ShapeFault); 3] = [
    // Of two faults on one line that of the lower number is told, in both orders.
    (
        b"pardo i, j\nget v(i)\nget d(i,j)\nendpardo\n",
        [21, 21],
        ShapeFault::WrongKind { line: 21 },
    ),
    (
        b"pardo i, j\nget d(i,j)\nget v(i)\nendpardo\n",
        [21, 21],
        ShapeFault::WrongKind { line: 21 },
    ),
    // The fault of the lower line is told also where it stands behind.
    (
        b"pardo i, j\nget d(m)\nd(i) = 3\nendpardo\n",
        [23, 22],
        ShapeFault::NotWritable { line: 22 },
    ),
];

#[test]
fn of_two_faults_the_first_is_told(rt: HostRuntime) -> Result<(), Fail> {
    for (lines, numbers, fault) in TWO_FAULTS {
        assert_eq!(rt; fault_of(rt.alloc(), lines, &numbers)?, Some(fault));
    }
    Ok(())
}
