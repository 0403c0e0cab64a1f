//! Numbers as words.

ghost use Rattle.std.specs.Prelude.{◌≡◌};
ghost use Rattle.sip_words.specs.Numbers as spec;
ghost use Rattle.sip_words.specs.Steps.{number_from, number_after, number_read};

/// The number that a word's digits are, if it is digits and the number is below 2^64.
#[tactic(auto, using(crate::proofs::NumberLemmas::number_found))]
pub fn number_in(word: &[u8]) -> Option<u64>
    ensures { result ≡ spec.number_in word.now }
{
    read_number(word)
}

// The number that a word's digits are, found from left to right.
fn read_number(word: &[u8]) -> Option<u64>
    ensures { result ≡ number_read word.now }
{
    match word {
        [] => None,
        digits => number_from_zero(digits),
    }
}

// The number that digits or none are.
fn number_from_zero(digits: &[u8]) -> Option<u64>
    ensures { result ≡ number_from 0 digits.now }
{
    let mut value: u64 = 0;
    for digit in digits {
        value = with_digit(value, *digit)?;
    }
    Some(value)
}

// The number with one more digit.
fn with_digit(value: u64, digit: u8) -> Option<u64>
    ensures { result ≡ number_after value digit }
{
    if !digit.is_ascii_digit() {
        return None;
    }
    value.checked_mul(10)?.checked_add(u64::from(digit - b'0'))
}
