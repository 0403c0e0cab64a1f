//! The classes of scalars and the sides of local arrays.

use crate::lines::call_within;
use crate::texts::{DECLARED, parsed};
use scalar_discipline::classes;
use sial_syntax::{Program, ScalarClass, Side};
use std::alloc::{AllocError, Global};
use std::test::Fail;

// The places of `s`, `e` and `l` among the scalars and the arrays.
const S: usize = 0;

const E: usize = 1;

const L: usize = 3;

// The first letter of a class.
fn class_letter(class: Option<&ScalarClass>) -> u8 {
    match class {
        Some(ScalarClass::Replicated) => b'r',
        Some(ScalarClass::Private) => b'v',
        Some(ScalarClass::Partial) => b'p',
        None => b'?',
    }
}

// The first letter of a side.
fn side_letter(side: Option<&Side>) -> u8 {
    match side {
        Some(Side::Outer) => b'o',
        Some(Side::Inner) => b'i',
        Some(Side::Unused) => b'u',
        None => b'?',
    }
}

// The classes of `s` and `e`, and the side of the local array.
fn letters(alloc: Global, program: &Program) -> Result<(u8, u8, u8), AllocError> {
    let found = classes(alloc, program)?;
    Ok((
        class_letter(found.scalars.get(S)),
        class_letter(found.scalars.get(E)),
        side_letter(found.locals.get(L)),
    ))
}

// The same of a program of these lines.
fn letters_of(alloc: Global, lines: &[u8]) -> Result<(u8, u8, u8), Fail> {
    let program = parsed(alloc, DECLARED, lines)?;
    Ok(letters(alloc, &program)?)
}

const WRITES: [(&[u8], (u8, u8, u8)); 9] = [
    (b"pardo i\ns = 1\nendpardo\n", (b'v', b'r', b'u')),
    (b"pardo i\ns *= 1\nendpardo\n", (b'v', b'r', b'u')),
    (b"pardo i\ns += 1\nendpardo\n", (b'p', b'r', b'u')),
    (b"pardo i\ns -= 1\nendpardo\n", (b'p', b'r', b'u')),
    (b"s = 1\n", (b'r', b'r', b'u')),
    (b"s *= 1\n", (b'r', b'r', b'u')),
    (b"s += 1\n", (b'r', b'r', b'u')),
    (b"s -= 1\n", (b'r', b'r', b'u')),
    // One other write makes a scalar private.
    (b"pardo i\ne += 1\ne *= 1\nendpardo\n", (b'r', b'v', b'u')),
];

#[test]
fn writes_within_a_pardo_make_the_class(rt: HostRuntime) -> Result<(), Fail> {
    for (lines, want) in WRITES {
        assert_eq!(rt; letters_of(rt.alloc(), lines)?, want);
    }
    Ok(())
}

const CALLS: [(&[u8], (u8, u8, u8)); 4] = [
    (
        b"proc p\ns += 1\nendproc\npardo i\ncall p\nendpardo\n",
        (b'p', b'r', b'u'),
    ),
    (
        b"proc p\ns += 1\nendproc\nproc q\ncall p\nendproc\npardo i\ncall q\nendpardo\n",
        (b'p', b'r', b'u'),
    ),
    (
        b"proc p\nl(i) = 3\nendproc\npardo i\ncall p\nendpardo\n",
        (b'r', b'r', b'i'),
    ),
    (b"proc p\nl(i) = 3\nendproc\ncall p\n", (b'r', b'r', b'o')),
];

#[test]
fn a_called_procedure_has_the_sides_of_its_calls(rt: HostRuntime) -> Result<(), Fail> {
    for (lines, want) in CALLS {
        assert_eq!(rt; letters_of(rt.alloc(), lines)?, want);
    }
    Ok(())
}

// A program that calls a procedure within a pardo, and has none: no text calls a procedure that isn't there.
fn calling_none(alloc: Global) -> Result<Program, Fail> {
    let mut program = parsed(
        alloc,
        DECLARED,
        b"proc p\nendproc\npardo i, j\ncall p\nendpardo\n",
    )?;
    program.procs = Vec::new(alloc);
    call_within(program.body.as_mut_slice(), 30, 9);
    Ok(program)
}

#[test]
fn a_procedure_that_is_not_there_has_no_side(rt: HostRuntime) -> Result<(), Fail> {
    let program = calling_none(rt.alloc())?;
    assert_eq!(rt; letters(rt.alloc(), &program)?, (b'r', b'r', b'u'));
    Ok(())
}
