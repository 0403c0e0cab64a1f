//! The words of a line.

ghost use Rattle.std.specs.Prelude.{◌≡◌, ◌<◌, ◌≤◌, ◌^◌, length, option_map, IfOk, IfSome};
ghost use Rattle.input_text.specs.Parts as spec;

use crate::part::part_at;
use crate::word::{Part, Word};
use std::alloc::{AllocError, Global};

/// The words of a line, in time linear in its length; none where it isn't cut into words.
pub fn words_in(alloc: Global, line: &[u8]) -> Result<Option<Vec<Word>>, AllocError>
    ensures { IfOk result (λ words. option_map (λ v. v.items) words ≡ spec.words_in line.now) }
{
    let mut words = Vec::new(alloc);
    let mut rest = line;
    for turn in 0..line.len() {
        if rest.is_empty() {
            break;
        }
        match step(alloc, &mut words, rest)? {
            Some(left) => rest = left,
            None => return Ok(None),
        }
    }
    Ok(Some(words))
}

// Takes what stands at the front, and gives what is left.
fn step<'a>(
    alloc: Global,
    words: &mut Vec<Word>,
    rest: &'a [u8],
) -> Result<Option<&'a [u8]>, AllocError>
    ensures { IfOk result (λ left. option_map (λ l. (words.new.items, l.now)) left ≡ spec.step words.old.items rest.now) }
{
    let Some(Part { word, len }) = part_at(alloc, rest)? else {
        return Ok(None);
    };
    match word {
        Some(word) => words.push(word)?,
        None => {}
    }
    let (_, left) = rest.split_at(len);
    Ok(Some(left))
}
