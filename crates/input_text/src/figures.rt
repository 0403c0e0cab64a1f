//! Plain numbers of a line.

ghost use Rattle.std.specs.Prelude.{◌≡◌, ◌++◌, [], map, option_map, IfOk, OnOk};
ghost use Rattle.std.specs.List.{list_any};
ghost use Rattle.input_text.specs.Adding.{is_wide, plain};
ghost use Rattle.input_text.specs.LineReading.{figures_from};
ghost use Rattle.input_text.specs.Texts as spec;

use crate::word::Word;
use std::alloc::{AllocError, Global};

const PAST_NUMBERS: u64 = 4_294_967_296;

/// The numbers that words are, each none where it is above 2^32 - 1; nothing where a word is no number.
pub fn figures_in(alloc: Global, words: &[Word]) -> Result<Option<Vec<Option<u32>>>, AllocError>
    ensures { IfOk result (λ figures. option_map (λ v. v.items) figures ≡ figures_from [] words.now) }
{
    let mut figures = Vec::new(alloc);
    for word in words {
        match word {
            Word::Number(number) => figures.push(narrow(*number))?,
            _ => return Ok(None),
        }
    }
    Ok(Some(figures))
}

// A number below 2^32; none where it is greater.
fn narrow(number: Option<u64>) -> Option<u32>
    ensures { result ≡ spec.narrow number }
{
    let number = number?;
    if number < PAST_NUMBERS {
        Some(number as u32)
    } else {
        None
    }
}

/// Whether a number is above 2^32 - 1.
pub fn has_great(figures: &[Option<u32>]) -> bool
    ensures { result ≡ list_any is_wide figures.now }
{
    for figure in figures {
        if figure.is_none() {
            return true;
        }
    }
    false
}

/// Adds numbers behind others.
pub fn extend(numbers: &mut Vec<u32>, figures: &[Option<u32>]) -> Result<(), AllocError>
    ensures { OnOk result (numbers.new.items ≡ numbers.old.items ++ map plain figures.now) }
{
    for figure in figures {
        numbers.push(figure.unwrap_or(0))?;
    }
    Ok(())
}
