//! What is refused, and at which line.

use sial_lexer::{LexFault, LexKind, lex};
use std::alloc::Global;
use std::test::Fail;

// The tokens that a text has, or its fault.
fn counted(alloc: Global, text: &[u8]) -> Result<u32, LexFault> {
    Ok(lex(alloc, text)?.len())
}

fn fault(line: u32, kind: LexKind) -> Result<u32, LexFault> {
    Err(LexFault { line, kind })
}

#[test]
fn each_fault_of_a_text_has_its_line(rt: HostRuntime) -> Result<(), Fail> {
    for (text, want) in [
        (b"a\n!".as_slice(), fault(2, LexKind::BadByte)),
        (b"a ! b = 0.5", fault(1, LexKind::BadByte)),
        (b".5", fault(1, LexKind::BadByte)),
        (b"a\rb", fault(1, LexKind::BadByte)),
        (b"a\r", fault(1, LexKind::BadByte)),
        (b"\"a\tb\"", fault(1, LexKind::BadByte)),
        (b"\"a\rb", fault(1, LexKind::BadByte)),
        (b"\xc3\xa9", fault(1, LexKind::BadByte)),
        (b"# \xc3\xa9\n", Ok(0)),
        (b"x += 0.5", fault(1, LexKind::Fraction)),
        (b"99999999999999999999.01", fault(1, LexKind::Fraction)),
        (b"\n\n18446744073709551616", fault(3, LexKind::TooWide)),
        (b"18446744073709551616.0", fault(1, LexKind::TooWide)),
        (b"print \"yes\n\"", fault(1, LexKind::OpenText)),
        (b"print \"yes\r\n\"", fault(1, LexKind::OpenText)),
        (b"print \"yes", fault(1, LexKind::OpenText)),
    ] {
        assert_eq!(rt; counted(rt.alloc(), text), want);
    }
    Ok(())
}

// So many bytes between two others.
fn around(
    alloc: Global,
    first: &[u8],
    byte: u8,
    count: usize,
    last: &[u8],
) -> Result<Vec<u8>, Fail> {
    let mut text = Vec::from_slice(alloc, first)?;
    for _ in 0..count {
        text.push(byte)?;
    }
    text.extend_from_slice(last)?;
    Ok(text)
}

#[test]
fn limits_of_tokens_hold_at_their_edge(rt: HostRuntime) -> Result<(), Fail> {
    for (first, byte, count, last, want) in [
        (b"".as_slice(), b'a', 64, b"".as_slice(), Ok(2)),
        (b"", b'a', 65, b"", fault(1, LexKind::TooLong)),
        (b"\"", b'a', 1024, b"\"", Ok(2)),
        (b"\"", b'a', 1025, b"\"", fault(1, LexKind::TooLong)),
        (b"\"", b'a', 1025, b"\n", fault(1, LexKind::TooLong)),
        (b"\"", b'a', 1024, b"\n", fault(1, LexKind::OpenText)),
        (b"\"", b'a', 1024, b"\x00", fault(1, LexKind::BadByte)),
        (b"", b' ', 1048576, b"", Ok(0)),
        (b"", b' ', 1048577, b"", fault(0, LexKind::TooLong)),
        (b"!", b' ', 1048576, b"", fault(0, LexKind::TooLong)),
    ] {
        let text = around(rt.alloc(), first, byte, count, last)?;
        assert_eq!(rt; counted(rt.alloc(), &text), want);
    }
    Ok(())
}
