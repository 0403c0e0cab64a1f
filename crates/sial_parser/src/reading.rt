//! Words taken from the front of others.

ghost use Rattle.std.specs.Prelude.{◌≡◌};
ghost use Rattle.sial_parser.specs.Answers.{Gives};
ghost use Rattle.sial_parser.specs.Grammar as grammar;
ghost use Rattle.sial_parser.specs.Names.{seen};
ghost use Rattle.sial_parser.specs.Parsing as spec;
ghost use Rattle.sial_parser.specs.Scope.{thing_of};

use crate::fault::ParseFault;
use crate::keyword::Keyword;
use crate::scope::Names;
use crate::sign::Sign;
use crate::thing::Thing;
use crate::word::{Symbol, Word};
use sial_syntax::Text;

/// The line of the first word.
pub fn line_of(words: &[Word]) -> u32
    ensures { result ≡ spec.line_of words.now }
{
    match words {
        [word, ..] => word.line,
        [] => 0,
    }
}

/// No program goes on so.
pub fn unexpected(words: &[Word]) -> ParseFault
    ensures { result ≡ ParseFault.Expected (spec.line_of words.now) }
{
    ParseFault::Expected {
        line: line_of(words),
    }
}

/// Takes a line end.
pub fn line_end(words: &[Word]) -> Result<&[Word], ParseFault>
    ensures { Gives (λ rest. rest.now) result (spec.skip spec.is_line_end words.now) }
{
    match words {
        [word, rest @ ..] if matches!(word.symbol, Symbol::LineEnd) => Ok(rest),
        _ => Err(unexpected(words)),
    }
}

/// Takes `(`.
pub fn opening(words: &[Word]) -> Result<&[Word], ParseFault>
    ensures { Gives (λ rest. rest.now) result (spec.skip grammar.opens words.now) }
{
    match words {
        [word, rest @ ..] if matches!(word.symbol, Symbol::Sign(Sign::Open)) => Ok(rest),
        _ => Err(unexpected(words)),
    }
}

/// Takes `,`.
pub fn comma(words: &[Word]) -> Result<&[Word], ParseFault>
    ensures { Gives (λ rest. rest.now) result (spec.skip spec.is_comma words.now) }
{
    match words {
        [word, rest @ ..] if matches!(word.symbol, Symbol::Sign(Sign::Comma)) => Ok(rest),
        _ => Err(unexpected(words)),
    }
}

/// Takes `=`.
pub fn equals(words: &[Word]) -> Result<&[Word], ParseFault>
    ensures { Gives (λ rest. rest.now) result (spec.skip spec.is_equals words.now) }
{
    match words {
        [word, rest @ ..] if matches!(word.symbol, Symbol::Sign(Sign::Equals)) => Ok(rest),
        _ => Err(unexpected(words)),
    }
}

/// Takes `+=`.
pub fn plus_equals(words: &[Word]) -> Result<&[Word], ParseFault>
    ensures { Gives (λ rest. rest.now) result (spec.skip spec.is_plus_equals words.now) }
{
    match words {
        [word, rest @ ..] if matches!(word.symbol, Symbol::Sign(Sign::PlusEquals)) => Ok(rest),
        _ => Err(unexpected(words)),
    }
}

/// Takes `of`.
pub fn of(words: &[Word]) -> Result<&[Word], ParseFault>
    ensures { Gives (λ rest. rest.now) result (spec.skip spec.is_of words.now) }
{
    match words {
        [word, rest @ ..] if matches!(word.symbol, Symbol::Key(Keyword::Of)) => Ok(rest),
        _ => Err(unexpected(words)),
    }
}

/// Takes a name.
pub fn name(words: &[Word]) -> Result<(&Text, &[Word]), ParseFault>
    ensures { Gives (λ x. (x.0.now, x.1.now)) result (spec.name words.now) }
{
    let [word, rest @ ..] = words else {
        return Err(unexpected(words));
    };
    match &word.symbol {
        Symbol::Name(name) => Ok((name, rest)),
        _ => Err(unexpected(words)),
    }
}

/// Takes the name of an index, and gives its number.
#[tactic(auto, unfolding(crate::specs::Parsing::index))]
pub fn index<'a>(names: &Names, words: &'a [Word]) -> Result<(u16, &'a [Word]), ParseFault>
    ensures { Gives (λ x. (x.0, x.1.now)) result (spec.index (seen names.now) words.now) }
{
    let (name, rest) = name(words)?;
    let number = index_by(line_of(words), names.thing(name.as_slice()))?;
    Ok((number, rest))
}

/// Takes the name of an array, and gives its number.
#[tactic(auto, unfolding(crate::specs::Parsing::array))]
pub fn array<'a>(names: &Names, words: &'a [Word]) -> Result<(u16, &'a [Word]), ParseFault>
    ensures { Gives (λ x. (x.0, x.1.now)) result (spec.array (seen names.now) words.now) }
{
    let (name, rest) = name(words)?;
    let number = array_by(line_of(words), names.thing(name.as_slice()))?;
    Ok((number, rest))
}

/// Takes the name of a scalar, and gives its number.
#[tactic(auto, unfolding(crate::specs::Parsing::scalar))]
pub fn scalar<'a>(names: &Names, words: &'a [Word]) -> Result<(u16, &'a [Word]), ParseFault>
    ensures { Gives (λ x. (x.0, x.1.now)) result (spec.scalar (seen names.now) words.now) }
{
    let (name, rest) = name(words)?;
    let number = scalar_by(line_of(words), names.thing(name.as_slice()))?;
    Ok((number, rest))
}

/// The number of an index.
pub fn index_by(line: u32, thing: Option<Thing>) -> Result<u16, ParseFault>
    ensures { Gives (λ n. n) result (spec.index_by line thing) }
{
    match thing {
        Some(Thing::Index(number)) => Ok(number),
        _ => Err(ParseFault::Undeclared { line }),
    }
}

/// The number of an array.
pub fn array_by(line: u32, thing: Option<Thing>) -> Result<u16, ParseFault>
    ensures { Gives (λ n. n) result (spec.array_by line thing) }
{
    match thing {
        Some(Thing::Array(number)) => Ok(number),
        _ => Err(ParseFault::Undeclared { line }),
    }
}

/// The number of a scalar.
pub fn scalar_by(line: u32, thing: Option<Thing>) -> Result<u16, ParseFault>
    ensures { Gives (λ n. n) result (spec.scalar_by line thing) }
{
    match thing {
        Some(Thing::Scalar(number)) => Ok(number),
        _ => Err(ParseFault::Undeclared { line }),
    }
}
