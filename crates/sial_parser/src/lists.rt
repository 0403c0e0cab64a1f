//! Lists of indices and slots, and blocks.

ghost use Rattle.std.specs.Prelude.{◌≡◌, [], length};
ghost use Rattle.sial_parser.specs.Answers.{Gives};
ghost use Rattle.sial_parser.specs.Closings.{closing_of};
ghost use Rattle.sial_parser.specs.Names.{seen};
ghost use Rattle.sial_parser.specs.Parsing as spec;

use crate::fault::{Counted, ParseFault};
use crate::reading::{array, index, index_by, line_end, line_of, opening, unexpected};
use crate::scope::Names;
use crate::sign::Sign;
use crate::word::{Symbol, Word};
use sial_syntax::{BlockRef, Slot, Tuple};
use std::alloc::Global;

/// What closes a list.
#[derive(Clone, Copy)]
pub enum Closing {
    Parenthesis,
    LineEnd,
}

const MOST_RANK: usize = 6;

/// Whether a list goes on: by a comma, or not, by what closes it.
#[tactic(auto, unfolding(crate::specs::Parsing::goes_on))]
pub fn goes_on(closing: Closing, words: &[Word]) -> Result<(bool, &[Word]), ParseFault>
    ensures { Gives (λ x. (x.0, x.1.now)) result (spec.goes_on (closing_of closing) words.now) }
{
    let [word, rest @ ..] = words else {
        return Err(unexpected(words));
    };
    match (&word.symbol, closing) {
        (Symbol::Sign(Sign::Comma), _) => Ok((true, rest)),
        (Symbol::Sign(Sign::Close), Closing::Parenthesis) => Ok((false, rest)),
        (Symbol::LineEnd, Closing::LineEnd) => Ok((false, rest)),
        _ => Err(unexpected(words)),
    }
}

/// `(` and indices and `)`, at most six.
#[tactic(auto, unfolding(crate::specs::Parsing::dims))]
pub fn dims<'a>(
    alloc: Global,
    names: &Names,
    words: &'a [Word],
) -> Result<(Tuple, &'a [Word]), ParseFault>
    ensures { Gives (λ x. (x.0, x.1.now)) result (spec.dims (seen names.now) words.now) }
{
    let rest = opening(words)?;
    let (numbers, rest) = indices(alloc, names, Closing::Parenthesis, MOST_RANK, rest)?;
    Ok((Tuple::from_slice(alloc, numbers.as_slice())?, rest))
}

/// A block.
#[tactic(auto, unfolding(crate::specs::Parsing::block))]
pub fn block<'a>(
    alloc: Global,
    names: &Names,
    words: &'a [Word],
) -> Result<(BlockRef, &'a [Word]), ParseFault>
    ensures { Gives (λ x. (x.0, x.1.now)) result (spec.block (seen names.now) words.now) }
{
    let (array, rest) = array(names, words)?;
    let (at, rest) = dims(alloc, names, rest)?;
    Ok((BlockRef { array, at }, rest))
}

/// A block and its line end.
pub fn block_line<'a>(
    alloc: Global,
    names: &Names,
    words: &'a [Word],
) -> Result<(BlockRef, &'a [Word]), ParseFault>
    ensures { Gives (λ x. (x.0, x.1.now)) result (spec.block_line (seen names.now) words.now) }
{
    let (block, rest) = block(alloc, names, words)?;
    let rest = line_end(rest)?;
    Ok((block, rest))
}

/// A slot.
#[tactic(auto, unfolding(crate::specs::Parsing::slot))]
pub fn slot<'a>(names: &Names, words: &'a [Word]) -> Result<(Slot, &'a [Word]), ParseFault>
    ensures { Gives (λ x. (x.0, x.1.now)) result (spec.slot (seen names.now) words.now) }
{
    let [word, rest @ ..] = words else {
        return Err(unexpected(words));
    };
    match &word.symbol {
        Symbol::Sign(Sign::Times) => Ok((Slot::All, rest)),
        Symbol::Name(name) => {
            let number = index_by(word.line, names.thing(name.as_slice()))?;
            Ok((Slot::At(number), rest))
        }
        _ => Err(unexpected(words)),
    }
}

/// `(` and slots and `)` and a line end.
#[tactic(auto, unfolding(crate::specs::Parsing::slots_line))]
pub fn slots_line<'a>(
    alloc: Global,
    names: &Names,
    words: &'a [Word],
) -> Result<(Vec<Slot>, &'a [Word]), ParseFault>
    ensures { Gives (λ x. (x.0.items, x.1.now)) result (spec.slots_line (seen names.now) words.now) }
{
    let rest = opening(words)?;
    let (slots, rest) = slots(alloc, names, MOST_RANK, rest)?;
    let rest = line_end(rest)?;
    Ok((slots, rest))
}

/// Indices up to what closes them, at most so many.
pub fn indices<'a>(
    alloc: Global,
    names: &Names,
    closing: Closing,
    most: usize,
    words: &'a [Word],
) -> Result<(Vec<u16>, &'a [Word]), ParseFault>
    ensures { Gives (λ x. (x.0.items, x.1.now)) result (spec.indices (seen names.now) (closing_of closing) most [] words.now) }
{
    let mut numbers = Vec::new(alloc);
    let mut rest = words;
    for turn in 0..most {
        let (number, more, behind) = index_and(names, closing, rest)?;
        numbers.push(number)?;
        rest = behind;
        if !more {
            return Ok((numbers, rest));
        }
    }
    Err(one_index_more(names, rest))
}

// An index, and whether the list goes on.
#[tactic(auto, unfolding(crate::specs::Parsing::index_and))]
fn index_and<'a>(
    names: &Names,
    closing: Closing,
    words: &'a [Word],
) -> Result<(u16, bool, &'a [Word]), ParseFault>
    ensures { Gives (λ x. ((x.0, x.1), x.2.now)) result (spec.index_and (seen names.now) (closing_of closing) words.now) }
{
    let (number, rest) = index(names, words)?;
    let (more, rest) = goes_on(closing, rest)?;
    Ok((number, more, rest))
}

// What is wrong where no further index may stand.
fn one_index_more(names: &Names, words: &[Word]) -> ParseFault
    ensures { Gives (λ x. x) (Err result) (spec.no_index (seen names.now) words.now) }
{
    match index(names, words) {
        Ok(_) => ParseFault::TooMany {
            line: line_of(words),
            which: Counted::Names,
        },
        Err(fault) => fault,
    }
}

/// Slots up to `)`, at most so many.
pub fn slots<'a>(
    alloc: Global,
    names: &Names,
    most: usize,
    words: &'a [Word],
) -> Result<(Vec<Slot>, &'a [Word]), ParseFault>
    ensures { Gives (λ x. (x.0.items, x.1.now)) result (spec.slots (seen names.now) most [] words.now) }
{
    let mut slots = Vec::new(alloc);
    let mut rest = words;
    for turn in 0..most {
        let (slot, more, behind) = slot_and(names, rest)?;
        slots.push(slot)?;
        rest = behind;
        if !more {
            return Ok((slots, rest));
        }
    }
    Err(one_slot_more(names, rest))
}

// A slot, and whether the list goes on.
#[tactic(auto, unfolding(crate::specs::Parsing::slot_and))]
fn slot_and<'a>(names: &Names, words: &'a [Word]) -> Result<(Slot, bool, &'a [Word]), ParseFault>
    ensures { Gives (λ x. ((x.0, x.1), x.2.now)) result (spec.slot_and (seen names.now) words.now) }
{
    let (slot, rest) = slot(names, words)?;
    let (more, rest) = goes_on(Closing::Parenthesis, rest)?;
    Ok((slot, more, rest))
}

// What is wrong where no further slot may stand.
fn one_slot_more(names: &Names, words: &[Word]) -> ParseFault
    ensures { Gives (λ x. x) (Err result) (spec.no_slot (seen names.now) words.now) }
{
    match slot(names, words) {
        Ok(_) => ParseFault::TooMany {
            line: line_of(words),
            which: Counted::Names,
        },
        Err(fault) => fault,
    }
}
