//! Lists of lengths or of segment numbers.

ghost use Rattle.std.specs.Prelude.{◌≡◌, ◌≤◌, [], IfOk, length};
ghost use Rattle.std.specs.List.{prefix_len};
ghost use Rattle.input_text.specs.Reading as spec;

use crate::word::Word;
use std::alloc::{AllocError, Global};
use std::marker::Model;

/// Numbers in order, which contracts see as their list.
#[derive(Drop)]
pub struct Numbers {
    numbers: Vec<u32>,
}

impl Model for Numbers {
    ghost use Rattle.std.specs.Prelude.{List, ℕ};

    ghost Value = { List ℕ };

    ghost view = { λ n. n.numbers.items };
}

impl Numbers {
    /// These numbers, with no memory taken.
    pub fn from_vec(numbers: Vec<u32>) -> Numbers
        ensures { result ≡ numbers.items }
    {
        Numbers { numbers }
    }

    /// The numbers, with no memory taken.
    pub fn into_vec(self) -> Vec<u32>
        ensures { result.items ≡ self }
    {
        self.numbers
    }

    /// The numbers.
    pub fn as_slice(&self) -> &[u32]
        ensures { result.now ≡ self.now }
    {
        self.numbers.as_slice()
    }
}

/// The numbers that words are; none where one is no number from `least` to `most`.
pub fn numbers_in(
    alloc: Global,
    words: &[Word],
    least: u32,
    most: u32,
) -> Result<Option<Numbers>, AllocError>
    ensures { IfOk result (λ numbers. numbers ≡ spec.numbers_from least most [] words.now) }
{
    let mut numbers = Vec::new(alloc);
    for word in words {
        match number_in(word, least, most) {
            Some(number) => numbers.push(number)?,
            None => return Ok(None),
        }
    }
    Ok(Some(Numbers::from_vec(numbers)))
}

/// The number that a word is; none where it is no number from `least` to `most`.
pub fn number_in(word: &Word, least: u32, most: u32) -> Option<u32>
    ensures { result ≡ spec.number_in least most word.now }
{
    match word {
        Word::Number(Some(number)) => within(*number, least, most),
        _ => None,
    }
}

fn within(number: u64, least: u32, most: u32) -> Option<u32>
    ensures { result ≡ spec.within least most number }
{
    if number < u64::from(least) || number > u64::from(most) {
        return None;
    }
    Some(number as u32)
}

/// How many words at the front are numbers.
pub fn numbers_len(words: &[Word]) -> usize
    ensures value { result ≡ prefix_len spec.is_number words.now }
    ensures within { result ≤ length words.now }
{
    words
        .iter()
        .take_while(|w| matches!(**w, Word::Number(_)))
        .count()
}
