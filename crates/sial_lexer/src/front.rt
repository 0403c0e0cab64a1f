//! The piece at the front of a text.

ghost use Rattle.std.specs.Prelude.{◌≡◌, ◌+◌, ◌≤◌, length, IfOk};
ghost use Rattle.sial_lexer.specs.Scanning as spec;

use crate::beginning::{Beginning, beginning_of};
use crate::fault::LexKind;
use crate::number::number_at;
use crate::piece::{Piece, PieceKind};
use crate::runs::{line_len, text_len, word_len};
use crate::sign::sign_len;
use crate::token::TokenKind;

const MOST_NAME: usize = 64;

const MOST_PRINTED: usize = 1024;

/// The piece at the front of a text that isn't empty, or what is wrong there.
pub fn front_of(text: &[u8]) -> Result<Piece, LexKind>
    ensures value { result ≡ spec.front_of text.now }
    ensures within { IfOk result (λ p. p.len ≤ length text.now) }
{
    let [first, rest @ ..] = text else {
        return Err(LexKind::BadByte);
    };
    match beginning_of(*first) {
        Beginning::Letter => name_at(text),
        Beginning::Digit => number_at(text),
        Beginning::Quote => quoted_at(rest),
        Beginning::Hash => Ok(comment_at(text)),
        Beginning::Blank => Ok(blank()),
        Beginning::LineFeed => Ok(line_break(1)),
        Beginning::Return => return_at(rest),
        Beginning::Sign => sign_at(text),
        Beginning::Nothing => Err(LexKind::BadByte),
    }
}

#[tactic(auto, unfolding(crate::specs::Scanning::name_at))]
fn name_at(text: &[u8]) -> Result<Piece, LexKind>
    ensures value { result ≡ spec.name_at text.now }
    ensures within { IfOk result (λ p. p.len ≤ length text.now) }
{
    let len = word_len(text);
    if len > MOST_NAME {
        return Err(LexKind::TooLong);
    }
    Ok(token(TokenKind::Name, len))
}

// The text behind an opening mark; a byte too many is met before what follows it.
#[tactic(auto, unfolding(crate::specs::Scanning::quoted_at))]
fn quoted_at(rest: &[u8]) -> Result<Piece, LexKind>
    ensures value { result ≡ spec.quoted_at rest.now }
    ensures within { IfOk result (λ p. p.len ≤ length rest.now + 1) }
{
    let len = text_len(rest);
    if len > MOST_PRINTED {
        return Err(LexKind::TooLong);
    }
    match &rest[len..] {
        [b'"', ..] => Ok(token(TokenKind::Quoted, len + 2)),
        [] | [b'\n', ..] | [b'\r', b'\n', ..] => Err(LexKind::OpenText),
        _ => Err(LexKind::BadByte),
    }
}

fn comment_at(text: &[u8]) -> Piece
    ensures value { result ≡ spec.comment_at text.now }
    ensures within { result.len ≤ length text.now }
{
    Piece {
        kind: PieceKind::Comment,
        len: line_len(text),
    }
}

fn blank() -> Piece
    ensures { result ≡ spec.blank }
{
    Piece {
        kind: PieceKind::Blank,
        len: 1,
    }
}

fn line_break(len: usize) -> Piece
    ensures { result ≡ spec.line_break len }
{
    Piece {
        kind: PieceKind::LineBreak,
        len,
    }
}

// What a carriage return begins.
fn return_at(rest: &[u8]) -> Result<Piece, LexKind>
    ensures value { result ≡ spec.return_at rest.now }
    ensures within { IfOk result (λ p. p.len ≤ length rest.now + 1) }
{
    match rest {
        [b'\n', ..] => Ok(line_break(2)),
        _ => Err(LexKind::BadByte),
    }
}

fn sign_at(text: &[u8]) -> Result<Piece, LexKind>
    ensures value { result ≡ spec.sign_at text.now }
    ensures within { IfOk result (λ p. p.len ≤ length text.now) }
{
    let len = sign_len(text);
    if len == 0 {
        return Err(LexKind::BadByte);
    }
    Ok(token(TokenKind::Sign, len))
}

fn token(kind: TokenKind, len: usize) -> Piece
    ensures { result ≡ spec.token kind len }
{
    Piece {
        kind: PieceKind::Token(kind),
        len,
    }
}
