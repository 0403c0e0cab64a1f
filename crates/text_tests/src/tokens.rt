//! Tokens of small texts.

use sial_lexer::{Token, TokenKind, lex};
use std::test::Fail;

fn token(kind: TokenKind, start: u32, end: u32, line: u32) -> Token {
    Token {
        kind,
        start,
        end,
        line,
    }
}

#[test]
fn tokens_have_their_kinds_spans_and_lines(rt: HostRuntime) -> Result<(), Fail> {
    let name = TokenKind::Name;
    let sign = TokenKind::Sign;
    let end = TokenKind::LineEnd;
    let zero = TokenKind::Number { value: 0 };
    let most = TokenKind::Number {
        value: 18446744073709551615,
    };
    for (text, want) in [
        (b"".as_slice(), [].as_slice()),
        (b" \t# alone\n\r\n", &[]),
        (b"a", &[token(name, 0, 1, 1), token(end, 1, 1, 1)]),
        (b"\n a\r\n\n", &[token(name, 2, 3, 2), token(end, 3, 5, 2)]),
        (
            b"a # c\r\n # d\n b",
            &[
                token(name, 0, 1, 1),
                token(end, 6, 7, 1),
                token(name, 13, 14, 3),
                token(end, 14, 14, 3),
            ],
        ),
        (
            b"Ab_1<=<",
            &[
                token(name, 0, 4, 1),
                token(sign, 4, 6, 1),
                token(sign, 6, 7, 1),
                token(end, 7, 7, 1),
            ],
        ),
        (
            b"0.00x 18446744073709551615.",
            &[
                token(zero, 0, 4, 1),
                token(name, 4, 5, 1),
                token(most, 6, 27, 1),
                token(end, 27, 27, 1),
            ],
        ),
        (
            b"\"#\"!=",
            &[
                token(TokenKind::Quoted, 0, 3, 1),
                token(sign, 3, 5, 1),
                token(end, 5, 5, 1),
            ],
        ),
    ] {
        match lex(rt.alloc(), text) {
            Ok(tokens) => {
                assert_eq!(rt; tokens.len() as usize, want.len());
                for (place, token) in want.iter().enumerate() {
                    assert_eq!(rt; tokens.token(place as u32), *token);
                }
            }
            Err(fault) => assert!(rt; false, "{fault:?}"),
        }
    }
    Ok(())
}
