//! What stands behind end words, and the lines of `where`.

ghost use Rattle.std.specs.Prelude.{◌≡◌, ◌+◌, [], length};
ghost use Rattle.sial_parser.specs.Answers.{Gives};
ghost use Rattle.sial_parser.specs.Names.{seen};
ghost use Rattle.sial_parser.specs.Parsing as spec;

use crate::fault::ParseFault;
use crate::keyword::Keyword;
use crate::lists::{Closing, goes_on};
use crate::operands::condition;
use crate::reading::{line_end, line_of, name, unexpected};
use crate::scope::Names;
use crate::thing::Thing;
use crate::word::{Symbol, Word};
use sial_syntax::{Cond, Text};
use std::alloc::Global;

/// The opener's name or none, and a line end.
#[tactic(auto, unfolding(crate::specs::Parsing::named_end))]
pub fn named_end<'a>(opener: &Text, words: &'a [Word]) -> Result<&'a [Word], ParseFault>
    ensures { Gives (λ rest. rest.now) result (spec.named_end opener.now words.now) }
{
    let [word, rest @ ..] = words else {
        return Err(unexpected(words));
    };
    match &word.symbol {
        Symbol::LineEnd => Ok(rest),
        Symbol::Name(name) if name.as_slice() == opener.as_slice() => line_end(rest),
        Symbol::Name(_) => Err(ParseFault::EndName { line: word.line }),
        _ => Err(unexpected(words)),
    }
}

// Whether something is the index of a number.
fn is_index(number: u16, thing: Option<Thing>) -> bool
    ensures { result ≡ spec.is_index number thing }
{
    match thing {
        Some(Thing::Index(other)) => number == other,
        _ => false,
    }
}

/// The names of the opener's indices or none, and a line end.
#[tactic(auto, unfolding(crate::specs::Parsing::listed_end))]
pub fn listed_end<'a>(
    names: &Names,
    opener: &[u16],
    words: &'a [Word],
) -> Result<&'a [Word], ParseFault>
    ensures { Gives (λ rest. rest.now) result (spec.listed_end (seen names.now) opener.now words.now) }
{
    match words {
        [] => Err(unexpected(words)),
        [word, rest @ ..] => {
            if matches!(word.symbol, Symbol::LineEnd) {
                Ok(rest)
            } else {
                listed(names, opener, words)
            }
        }
    }
}

// The names of indices, all of them and in order, and a line end.
#[tactic(auto, unfolding(crate::specs::Parsing::listed))]
fn listed<'a>(names: &Names, opener: &[u16], words: &'a [Word]) -> Result<&'a [Word], ParseFault>
    ensures { Gives (λ rest. rest.now) result (spec.listed (seen names.now) opener.now words.now) }
{
    let (name, rest) = name(words)?;
    let line = line_of(words);
    let [number, others @ ..] = opener else {
        return Err(ParseFault::EndName { line });
    };
    if !is_index(*number, names.thing(name.as_slice())) {
        return Err(ParseFault::EndName { line });
    }
    let (more, behind) = goes_on(Closing::LineEnd, rest)?;
    if more {
        return listed(names, others, behind);
    }
    if !others.is_empty() {
        return Err(ParseFault::EndName {
            line: line_of(rest),
        });
    }
    Ok(behind)
}

/// The lines of `where`.
pub fn wheres<'a>(
    alloc: Global,
    names: &Names,
    words: &'a [Word],
) -> Result<(Vec<Cond>, &'a [Word]), ParseFault>
    ensures { Gives (λ x. (x.0.items, x.1.now)) result (spec.wheres (seen names.now) (length words.now + 1) [] words.now) }
{
    let mut conds = Vec::new(alloc);
    let mut rest = words;
    for turn in 0..words.len() + 1 {
        let (line, behind) = where_one(names, rest)?;
        rest = behind;
        match line {
            Some(cond) => conds.push(cond)?,
            None => return Ok((conds, rest)),
        }
    }
    Err(unexpected(rest))
}

// A line of `where`, if one stands there.
#[tactic(auto, unfolding(crate::specs::Parsing::where_one))]
fn where_one<'a>(names: &Names, words: &'a [Word]) -> Result<(Option<Cond>, &'a [Word]), ParseFault>
    ensures { Gives (λ x. (x.0, x.1.now)) result (spec.where_one (seen names.now) words.now) }
{
    let [word, rest @ ..] = words else {
        return Err(unexpected(words));
    };
    if !matches!(word.symbol, Symbol::Key(Keyword::Where)) {
        return Ok((None, words));
    }
    let (cond, rest) = condition(names, rest)?;
    Ok((Some(cond), rest))
}
