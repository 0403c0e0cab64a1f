//! What is refused of a program, and at which line.

use sial_lexer::{LexFault, LexKind};
use sial_parser::{ParseFault, parse};
use std::alloc::Global;
use std::test::Fail;

// How many indices, arrays, scalars, procedures and statements of its body a program has, or its fault.
fn parts(alloc: Global, text: &[u8]) -> Result<[usize; 5], ParseFault> {
    let program = parse(alloc, text)?;
    Ok([
        program.indices.len(),
        program.arrays.len(),
        program.scalars.len(),
        program.procs.len(),
        program.body.len(),
    ])
}

// A fault of the lexer.
fn lexed(line: u32, kind: LexKind) -> Result<[usize; 5], ParseFault> {
    Err(ParseFault::Lex(LexFault { line, kind }))
}

#[test]
fn each_fault_of_a_program_has_its_line(rt: HostRuntime) -> Result<(), Fail> {
    for (text, want) in [
        (
            b"sial wrap\nscalar x\nx += 0.5\nexecute print_scalar x\nendsial wrap".as_slice(),
            lexed(3, LexKind::Fraction),
        ),
        (
            b"sial wrap\nscalar x\ny += 2\nexecute print_scalar x\nendsial wrap",
            Err(ParseFault::Undeclared { line: 3 }),
        ),
        (
            b"sial wrap\nscalar x\nx += += 2\nexecute print_scalar x\nendsial wrap",
            Err(ParseFault::Expected { line: 3 }),
        ),
        (
            b"sial wrap\nscalar x\nx += 2 !\nexecute print_scalar x\nendsial wrap",
            lexed(3, LexKind::BadByte),
        ),
        (
            b"sial wrap\nscalar x\nscalar x\nexecute print_scalar x\nendsial wrap",
            Err(ParseFault::Twice { line: 3 }),
        ),
        (b"sial p\nscalar x\nX += 2\nendsial", Ok([0, 0, 1, 0, 1])),
        (
            b"sial p\nscalar x\nx = 18446744073709551616\nendsial",
            lexed(3, LexKind::TooWide),
        ),
        (b"sial p\nprint \"yes\nendsial", lexed(2, LexKind::OpenText)),
        (b"sial p\n", Err(ParseFault::Expected { line: 2 })),
        (b"", Err(ParseFault::Expected { line: 1 })),
        (
            b"sial p\nindex i = 1, 2\ndo i\nenddo j\nendsial p",
            Err(ParseFault::EndName { line: 4 }),
        ),
        (
            b"sial p\nindex i = 1, 2\nindex j = 1, 2\npardo i, j\nendpardo i\nendsial p",
            Err(ParseFault::EndName { line: 5 }),
        ),
        (
            b"sial p\nindex i = 1, 2\ndo i\nenddo j\nx = 1\nendsial q",
            Err(ParseFault::EndName { line: 4 }),
        ),
        (b"sial p\nendsial q", Err(ParseFault::EndName { line: 2 })),
        (
            b"sial p\nproc q\nendproc p\nendsial",
            Err(ParseFault::EndName { line: 3 }),
        ),
        (
            b"sial p\nproc q\nendproc\nscalar q\nendsial",
            Err(ParseFault::Expected { line: 4 }),
        ),
        (
            b"sial p\nscalar q\nproc q\nendproc\nendsial",
            Err(ParseFault::Twice { line: 3 }),
        ),
        (
            b"sial p\ncall q\nfoo\nendsial p",
            Err(ParseFault::Undeclared { line: 3 }),
        ),
        (
            b"sial p\ncall q\nendsial p",
            Err(ParseFault::Undeclared { line: 2 }),
        ),
        (
            b"sial p\nproc q\ncall r\nendproc q\nproc r\nendproc\ncall q\nendsial",
            Ok([0, 0, 0, 2, 1]),
        ),
        (
            b"sial p\nindex i = 1, 2\ndistributed max(i)\ntemp t(i)\nput max(i) max= t(i)\nendsial p",
            Ok([1, 2, 0, 0, 1]),
        ),
    ] {
        assert_eq!(rt; parts(rt.alloc(), text), want);
    }
    Ok(())
}
