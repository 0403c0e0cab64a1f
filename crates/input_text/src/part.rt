//! What stands at the front of a line.

ghost use Rattle.std.specs.Prelude.{◌≡◌, ◌+◌, ◌≤◌, length, IfOk, IfSome};
ghost use Rattle.std.specs.List.{prefix_len};
ghost use Rattle.sial_lexer.specs.Characters as characters;
ghost use Rattle.sial_lexer.specs.Scanning.{value_in, value_after};
ghost use Rattle.input_text.specs.Parts as spec;

use crate::word::{Part, Word};
use sial_lexer::Beginning;
use sial_syntax::Text;
use std::alloc::{AllocError, Global};

const MOST_NAME: usize = 64;

/// The word or the gap at the front; none where neither stands there.
pub fn part_at(alloc: Global, rest: &[u8]) -> Result<Option<Part>, AllocError>
    ensures value { IfOk result (λ part. part ≡ spec.part_at rest.now) }
    ensures within { IfOk result (λ part. IfSome part (λ p. p.len ≤ length rest.now)) }
{
    let [first, behind @ ..] = rest else {
        return Ok(None);
    };
    match beginning_of(*first) {
        Beginning::Letter => name_at(alloc, rest),
        Beginning::Digit => Ok(number_at(rest)),
        Beginning::Hash => Ok(gap(before_line_feed(rest))),
        Beginning::Blank => Ok(gap(1)),
        Beginning::LineFeed => Ok(gap(1)),
        Beginning::Return => Ok(return_at(behind)),
        Beginning::Sign => Ok(sign_at(*first, behind)),
        Beginning::Quote => Ok(None),
        Beginning::Nothing => Ok(None),
    }
}

// What a byte begins.
fn beginning_of(byte: u8) -> Beginning
    ensures { result ≡ characters.beginning_of byte }
{
    match byte {
        b'a'..=b'z' | b'A'..=b'Z' => Beginning::Letter,
        b'0'..=b'9' => Beginning::Digit,
        b'"' => Beginning::Quote,
        b'#' => Beginning::Hash,
        b' ' | b'\t' => Beginning::Blank,
        b'\n' => Beginning::LineFeed,
        b'\r' => Beginning::Return,
        b'=' | b'<' | b'>' | b'!' | b'+' | b'-' | b'*' | b'^' | b'(' | b')' | b',' => {
            Beginning::Sign
        }
        _ => Beginning::Nothing,
    }
}

#[tactic(auto, unfolding(crate::specs::Parts::name_part))]
fn name_at(alloc: Global, rest: &[u8]) -> Result<Option<Part>, AllocError>
    ensures value { IfOk result (λ part. part ≡ spec.name_part rest.now) }
    ensures within { IfOk result (λ part. IfSome part (λ p. p.len ≤ length rest.now)) }
{
    let len = name_len(rest);
    if len > MOST_NAME {
        return Ok(None);
    }
    let name = folded(alloc, &rest[..len])?;
    Ok(Some(Part {
        word: Some(Word::Name(name)),
        len,
    }))
}

// A name with capital letters made small.
fn folded(alloc: Global, name: &[u8]) -> Result<Text, AllocError>
    ensures { IfOk result (λ text. text ≡ characters.folded name.now) }
{
    Ok(Text::from_vec(name.to_ascii_lowercase(alloc)?))
}

#[tactic(auto, unfolding(crate::specs::Parts::number_part))]
fn number_at(rest: &[u8]) -> Option<Part>
    ensures value { result ≡ spec.number_part rest.now }
    ensures within { IfSome result (λ p. p.len ≤ length rest.now) }
{
    let (digits, behind) = rest.split_at(digits_len(rest));
    if matches!(behind, [b'.', ..]) {
        return None;
    }
    Some(Part {
        word: Some(Word::Number(value_in(digits))),
        len: digits.len(),
    })
}

// What a carriage return begins.
fn return_at(behind: &[u8]) -> Option<Part>
    ensures value { result ≡ spec.return_part behind.now }
    ensures within { IfSome result (λ p. p.len ≤ length behind.now + 1) }
{
    match behind {
        [b'\n', ..] => gap(2),
        _ => None,
    }
}

// The sign that a byte is, where it isn't the first of two bytes that are one sign.
fn sign_at(first: u8, behind: &[u8]) -> Option<Part>
    ensures value { result ≡ spec.sign_part first behind.now }
    ensures within { IfSome result (λ p. p.len ≤ 1) }
{
    if matches!(behind, [b'=', ..]) {
        return None;
    }
    match first {
        b'=' => sign(Word::Equals),
        b'-' => sign(Word::Minus),
        _ => None,
    }
}

fn sign(word: Word) -> Option<Part>
    ensures { result ≡ spec.sign word }
{
    Some(Part {
        word: Some(word),
        len: 1,
    })
}

fn gap(len: usize) -> Option<Part>
    ensures { result ≡ spec.gap len }
{
    Some(Part { word: None, len })
}

// How many bytes at the front stand in names.
fn name_len(text: &[u8]) -> usize
    ensures value { result ≡ prefix_len characters.is_word_byte text.now }
    ensures within { result ≤ length text.now }
{
    text.iter()
        .take_while(|b| matches!(**b, b'a'..=b'z' | b'A'..=b'Z' | b'0'..=b'9' | b'_'))
        .count()
}

// How many bytes at the front are digits.
fn digits_len(text: &[u8]) -> usize
    ensures value { result ≡ prefix_len characters.is_digit text.now }
    ensures within { result ≤ length text.now }
{
    text.iter()
        .take_while(|b| matches!(**b, b'0'..=b'9'))
        .count()
}

/// How many bytes there are before the line feed.
pub fn before_line_feed(text: &[u8]) -> usize
    ensures value { result ≡ prefix_len characters.is_within_line text.now }
    ensures within { result ≤ length text.now }
{
    text.iter().take_while(|b| **b != b'\n').count()
}

// The number that digits spell, where it fits 64 bits.
fn value_in(digits: &[u8]) -> Option<u64>
    ensures { result ≡ value_in 0 digits.now }
{
    let mut value: u64 = 0;
    for digit in digits {
        value = value_after(value, *digit)?;
    }
    Some(value)
}

// The number with one more digit.
fn value_after(value: u64, digit: u8) -> Option<u64>
    ensures { result ≡ value_after value digit }
{
    value
        .checked_mul(10)?
        .checked_add(u64::from(digit.saturating_sub(b'0')))
}
