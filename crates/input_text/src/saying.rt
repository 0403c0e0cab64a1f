//! What the words of a line say.

ghost use Rattle.std.specs.Prelude.{◌≡◌, IfOk};
ghost use Rattle.input_text.specs.Reading as spec;

use crate::keyword::{Keyword, keyword_of, kind_of};
use crate::numbers::{number_in, numbers_in, numbers_len};
use crate::said::Said;
use crate::values::{Value, values_in};
use crate::word::Word;
use sial_syntax::Text;
use std::alloc::{AllocError, Global};

const MOST_LENGTH: u32 = 1024;

/// What words say; none where an input may not say it.
pub fn said_in(alloc: Global, words: &[Word]) -> Result<Option<Said>, AllocError>
    ensures { IfOk result (λ said. said ≡ spec.said_in words.now) }
{
    let [first, rest @ ..] = words else {
        return Ok(Some(Said::Nothing));
    };
    match keyword_in(first) {
        Some(Keyword::Const) => constant_in(alloc, rest),
        Some(Keyword::Segments) => segments_in(alloc, rest),
        Some(Keyword::Subsegment) => Ok(subsegment_in(rest)),
        Some(Keyword::Scalar) => scalar_in(alloc, rest),
        Some(Keyword::Block) => block_in(alloc, rest),
        None => Ok(None),
    }
}

// The keyword that a word is.
fn keyword_in(word: &Word) -> Option<Keyword>
    ensures { result ≡ spec.keyword_in word.now }
{
    match word {
        Word::Name(name) => keyword_of(name.as_slice()),
        _ => None,
    }
}

#[tactic(auto, unfolding(crate::specs::Reading::constant_in))]
fn constant_in(alloc: Global, words: &[Word]) -> Result<Option<Said>, AllocError>
    ensures { IfOk result (λ said. said ≡ spec.constant_in words.now) }
{
    match words {
        [Word::Name(name), Word::Equals, Word::Number(value)] => {
            let name = Text::from_slice(alloc, name.as_slice())?;
            Ok(Some(Said::Constant {
                name,
                value: *value,
            }))
        }
        _ => Ok(None),
    }
}

#[tactic(auto, unfolding(crate::specs::Reading::segments_in))]
fn segments_in(alloc: Global, words: &[Word]) -> Result<Option<Said>, AllocError>
    ensures { IfOk result (λ said. said ≡ spec.segments_in words.now) }
{
    let [Word::Name(kind), first, rest @ ..] = words else {
        return Ok(None);
    };
    let Some(kind) = kind_of(kind.as_slice()) else {
        return Ok(None);
    };
    match numbers_in(alloc, &words[1..], 1, MOST_LENGTH)? {
        Some(lengths) => Ok(Some(Said::Segments { kind, lengths })),
        None => Ok(None),
    }
}

#[tactic(auto, unfolding(crate::specs::Reading::subsegment_in))]
fn subsegment_in(words: &[Word]) -> Option<Said>
    ensures { result ≡ spec.subsegment_in words.now }
{
    let [Word::Name(kind), size] = words else {
        return None;
    };
    let kind = kind_of(kind.as_slice())?;
    let size = number_in(size, 1, MOST_LENGTH)?;
    Some(Said::Subsegment { kind, size })
}

#[tactic(auto, unfolding(crate::specs::Reading::scalar_in))]
fn scalar_in(alloc: Global, words: &[Word]) -> Result<Option<Said>, AllocError>
    ensures { IfOk result (λ said. said ≡ spec.scalar_in words.now) }
{
    let [Word::Name(name), Word::Equals, rest @ ..] = words else {
        return Ok(None);
    };
    let Some(value) = value_in(rest) else {
        return Ok(None);
    };
    let name = Text::from_slice(alloc, name.as_slice())?;
    Ok(Some(Said::Scalar { name, value }))
}

// The one value that words are.
fn value_in(words: &[Word]) -> Option<Value>
    ensures { result ≡ spec.value_in words.now }
{
    match words {
        [Word::Number(number)] => Some(Value {
            negative: false,
            number: *number,
        }),
        [Word::Minus, Word::Number(number)] => Some(Value {
            negative: true,
            number: *number,
        }),
        _ => None,
    }
}

#[tactic(auto, unfolding(crate::specs::Reading::block_in))]
fn block_in(alloc: Global, words: &[Word]) -> Result<Option<Said>, AllocError>
    ensures { IfOk result (λ said. said ≡ spec.block_in words.now) }
{
    let [Word::Name(name), rest @ ..] = words else {
        return Ok(None);
    };
    let (segments, behind) = rest.split_at(numbers_len(rest));
    let [Word::Equals, values @ ..] = behind else {
        return Ok(None);
    };
    filled(alloc, name, segments, values)
}

// A block of a name, with its segments and elements.
#[tactic(auto, unfolding(crate::specs::Reading::filled))]
fn filled(
    alloc: Global,
    name: &Text,
    segments: &[Word],
    values: &[Word],
) -> Result<Option<Said>, AllocError>
    ensures { IfOk result (λ said. said ≡ spec.filled name.now segments.now values.now) }
{
    if segments.is_empty() || values.is_empty() {
        return Ok(None);
    }
    let Some(segments) = numbers_in(alloc, segments, 0, u32::MAX)? else {
        return Ok(None);
    };
    let Some(elements) = values_in(alloc, values)? else {
        return Ok(None);
    };
    let name = Text::from_slice(alloc, name.as_slice())?;
    Ok(Some(Said::Block {
        name,
        segments,
        elements,
    }))
}
