//! Texts of numbers: schedules and placements.

ghost use Rattle.std.specs.Prelude.{◌≡◌, ◌<◌, ◌≤◌, ◌^◌, List, ℕ, length, IfOk, IfErr, Ok, Err};
ghost use Rattle.input_text.specs.LineReading as spec;
ghost use Rattle.input_text.specs.Texts.{AreNumbersOf, IsNumbersCause, IsNumbersFault};
ghost use Rattle.input_text.specs.declared.fault.InputFault.{InputFault};

use crate::fault::InputFault;
use crate::figures::{extend, figures_in, has_great};
use crate::lines::first_line;
use crate::words::words_in;
use std::alloc::Global;

/// The numbers of a text, at most so many, or the text's first fault, in time linear in its length.
pub fn read_numbers(alloc: Global, text: &[u8], most: u32) -> Result<Vec<u32>, InputFault>
    requires { length text.now < 2 ^ 31 }

    // What is given are the text's numbers, and they are given wherever the text has them and memory is found.
    ensures found { IfOk result (λ numbers. AreNumbersOf most text.now numbers.items) }
    ensures only { (numbers : List ℕ) → AreNumbersOf most text.now numbers → spec.Gives (λ v. v.items) result (Ok numbers) }

    // What is refused is refused for the text's first fault, and each text with a fault is.
    ensures fault { IfErr result (IsNumbersCause most text.now) }
    ensures only_fault { (fault : InputFault) → IsNumbersFault most text.now fault → spec.Gives (λ v. v.items) result (Err fault) }
{
    numbers_of(alloc, text, most)
}

// The numbers of a text, line by line.
fn numbers_of(alloc: Global, text: &[u8], most: u32) -> Result<Vec<u32>, InputFault>
    requires { length text.now < 2 ^ 31 }
    ensures { spec.Gives (λ v. v.items) result (spec.numbers_of_text most text.now) }
{
    let mut numbers = Vec::new(alloc);
    let mut rest = text;
    let mut line: u32 = 1;
    while !rest.is_empty() {
        let (first, left) = first_line(rest);
        add_numbers(alloc, &mut numbers, most, line, first)?;
        rest = left;
        line += 1;
    }
    Ok(numbers)
}

// Adds the numbers of a line.
fn add_numbers(
    alloc: Global,
    numbers: &mut Vec<u32>,
    most: u32,
    line: u32,
    text: &[u8],
) -> Result<(), InputFault>
    ensures { spec.Gives (λ _. numbers.new.items) result (spec.add_numbers most numbers.old.items line text.now) }
{
    let Some(words) = words_in(alloc, text)? else {
        return Err(InputFault::BadLine { line });
    };
    let Some(figures) = figures_in(alloc, words.as_slice())? else {
        return Err(InputFault::BadLine { line });
    };
    if has_great(figures.as_slice()) {
        return Err(InputFault::TooWide { line });
    }
    if numbers.len() + figures.len() > most as usize {
        return Err(InputFault::TooMany { line });
    }
    extend(numbers, figures.as_slice())?;
    Ok(())
}
