//! The limits of programs, at their edge and one past it.

use sial_lexer::{LexFault, LexKind};
use sial_parser::{Counted, ParseFault, parse};
use std::alloc::Global;
use std::test::Fail;

// The fault of a text, if it has one.
fn fault(alloc: Global, text: &[u8]) -> Option<ParseFault> {
    match parse(alloc, text) {
        Ok(_) => None,
        Err(fault) => Some(fault),
    }
}

fn too_many(line: u32, which: Counted) -> Option<ParseFault> {
    Some(ParseFault::TooMany { line, which })
}

fn lexed(line: u32, kind: LexKind) -> Option<ParseFault> {
    Some(ParseFault::Lex(LexFault { line, kind }))
}

// A text with so many copies of two parts, the first ones before the second ones.
fn repeated(
    alloc: Global,
    first: &[u8],
    parts: (&[u8], &[u8]),
    count: usize,
    last: &[u8],
) -> Result<Vec<u8>, Fail> {
    let mut text = Vec::from_slice(alloc, first)?;
    for _ in 0..count {
        text.extend_from_slice(parts.0)?;
    }
    for _ in 0..count {
        text.extend_from_slice(parts.1)?;
    }
    text.extend_from_slice(last)?;
    Ok(text)
}

#[test]
fn statements_and_bodies_have_their_limits(rt: HostRuntime) -> Result<(), Fail> {
    for (first, parts, count, want) in [
        (
            b"sial p\nscalar x\n".as_slice(),
            (b"x=1\n".as_slice(), b"".as_slice()),
            65535,
            None,
        ),
        (
            b"sial p\nscalar x\n",
            (b"x=1\n", b""),
            65536,
            too_many(65538, Counted::Statements),
        ),
        (b"sial p\n", (b"if 1<1\n", b"endif\n"), 32, None),
        (
            b"sial p\n",
            (b"if 1<1\n", b"endif\n"),
            33,
            Some(ParseFault::TooDeep { line: 34 }),
        ),
    ] {
        let text = repeated(rt.alloc(), first, parts, count, b"\nendsial")?;
        assert_eq!(rt; fault(rt.alloc(), &text), want);
    }
    Ok(())
}

#[test]
fn lists_and_names_have_their_limits(rt: HostRuntime) -> Result<(), Fail> {
    for (first, part, count, last, want) in [
        (
            b"sial p\nindex i=1,2\ntemp a(i".as_slice(),
            b",i".as_slice(),
            5,
            b")\nendsial".as_slice(),
            None,
        ),
        (
            b"sial p\nindex i=1,2\ntemp a(i",
            b",i",
            6,
            b")\nendsial",
            too_many(3, Counted::Names),
        ),
        (
            b"sial p\nindex i=1,2\ntemp a(i)\nget a(i",
            b",i",
            6,
            b")\nendsial",
            too_many(4, Counted::Names),
        ),
        (
            b"sial p\nindex i=1,2\nlocal a(i)\nallocate a(*",
            b",i",
            5,
            b")\nendsial",
            None,
        ),
        (
            b"sial p\nindex i=1,2\nlocal a(i)\nallocate a(*",
            b",*",
            6,
            b")\nendsial",
            too_many(4, Counted::Names),
        ),
        (
            b"sial p\nindex i=1,2\npardo i",
            b",i",
            11,
            b"\nendpardo\nendsial",
            None,
        ),
        (
            b"sial p\nindex i=1,2\npardo i",
            b",i",
            12,
            b"\nendpardo\nendsial",
            too_many(3, Counted::Names),
        ),
        (b"sial p", b"q", 63, b"\nendsial", None),
        (
            b"sial p",
            b"q",
            64,
            b"\nendsial",
            lexed(1, LexKind::TooLong),
        ),
        (b"sial p\n", b" ", 1048576 - 14, b"endsial", None),
        (
            b"sial p\n",
            b" ",
            1048576 - 13,
            b"endsial",
            lexed(0, LexKind::TooLong),
        ),
    ] {
        let text = repeated(rt.alloc(), first, (part, b""), count, last)?;
        assert_eq!(rt; fault(rt.alloc(), &text), want);
    }
    Ok(())
}

// A text with a line for each of so many names.
fn with_names(
    alloc: Global,
    first: &[u8],
    word: &[u8],
    behind: &[u8],
    count: usize,
) -> Result<Vec<u8>, Fail> {
    let letters = b"abcdefghijklmnopqrstuvwxyz";
    let mut text = Vec::from_slice(alloc, first)?;
    let mut left = count;
    for one in letters {
        for other in letters {
            if left > 0 {
                left -= 1;
                text.extend_from_slice(word)?;
                text.extend_from_slice(b" x")?;
                text.push(*one)?;
                text.push(*other)?;
                text.extend_from_slice(behind)?;
            }
        }
    }
    text.extend_from_slice(b"endsial")?;
    Ok(text)
}

#[test]
fn each_kind_of_name_has_256(rt: HostRuntime) -> Result<(), Fail> {
    for (first, word, behind, which) in [
        (
            b"sial p\n\n".as_slice(),
            b"index".as_slice(),
            b"=1,2\n".as_slice(),
            Counted::Indices,
        ),
        (b"sial p\nindex i=1,2\n", b"temp", b"(i)\n", Counted::Arrays),
        (b"sial p\n\n", b"scalar", b"\n", Counted::Scalars),
    ] {
        let text = with_names(rt.alloc(), first, word, behind, 256)?;
        assert_eq!(rt; fault(rt.alloc(), &text), None);
        let text = with_names(rt.alloc(), first, word, behind, 257)?;
        assert_eq!(rt; fault(rt.alloc(), &text), too_many(259, which));
    }
    let text = with_names(rt.alloc(), b"sial p\n", b"proc", b"\nendproc\n", 256)?;
    assert_eq!(rt; fault(rt.alloc(), &text), None);
    let text = with_names(rt.alloc(), b"sial p\n", b"proc", b"\nendproc\n", 257)?;
    assert_eq!(rt; fault(rt.alloc(), &text), too_many(514, Counted::Procs));
    Ok(())
}
