//! Numbers: digits, and a point with zeros behind it.

ghost use Rattle.std.specs.Prelude.{◌≡◌, ◌*◌, ◌+◌, ◌-◌, ◌<◌, ◌≤◌, ◌^◌, length, IfOk};
ghost use Rattle.std.specs.List.{list_all};
ghost use Rattle.sial_lexer.specs.Characters.{is_digit};
ghost use Rattle.sial_lexer.specs.Scanning as spec;

use crate::fault::LexKind;
use crate::piece::{Piece, PieceKind};
use crate::runs::{are_zeros, digits_len};
use crate::token::TokenKind;

/// The number at the front of a text that begins with a digit.
#[tactic(auto, unfolding(crate::specs::Scanning::number_at))]
pub fn number_at(text: &[u8]) -> Result<Piece, LexKind>
    ensures value { result ≡ spec.number_at text.now }
    ensures within { IfOk result (λ p. p.len ≤ length text.now) }
{
    let (digits, rest) = text.split_at(digits_len(text));
    let fraction = fraction_len(rest)?;
    let value = value_in(digits).ok_or(LexKind::TooWide)?;
    Ok(Piece {
        kind: PieceKind::Token(TokenKind::Number { value }),
        len: digits.len() + fraction,
    })
}

// How many bytes a point and the zeros behind it are, none where there is no point.
#[tactic(auto, unfolding(crate::specs::Scanning::fraction_len))]
fn fraction_len(text: &[u8]) -> Result<usize, LexKind>
    ensures value { result ≡ spec.fraction_len text.now }
    ensures within { IfOk result (λ n. n ≤ length text.now) }
{
    match text {
        [b'.', rest @ ..] => {
            let (zeros, _) = rest.split_at(digits_len(rest));
            if are_zeros(zeros) {
                Ok(1 + zeros.len())
            } else {
                Err(LexKind::Fraction)
            }
        }
        _ => Ok(0),
    }
}

// The number that digits spell, where it fits 64 bits.
fn value_in(digits: &[u8]) -> Option<u64>
    ensures { result ≡ spec.value_in 0 digits.now }
{
    let mut value: u64 = 0;
    for digit in digits {
        value = value_after(value, *digit)?;
    }
    Some(value)
}

// The number with one more digit.
fn value_after(value: u64, digit: u8) -> Option<u64>
    ensures { result ≡ spec.value_after value digit }
{
    value
        .checked_mul(10)?
        .checked_add(u64::from(digit.saturating_sub(b'0')))
}
