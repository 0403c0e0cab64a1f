//! Operands, right sides, conditions and targets.

ghost use Rattle.std.specs.Prelude.{◌≡◌};
ghost use Rattle.sial_parser.specs.Answers.{Gives};
ghost use Rattle.sial_parser.specs.Grammar as grammar;
ghost use Rattle.sial_parser.specs.Names.{seen};
ghost use Rattle.sial_parser.specs.Parsing as spec;

use crate::fault::ParseFault;
use crate::lists::block;
use crate::reading::{equals, line_end, scalar_by, unexpected};
use crate::scope::Names;
use crate::sign::Sign;
use crate::thing::Thing;
use crate::word::{Symbol, Word};
use sial_syntax::{Access, Bin, Cond, Op, Operand, Right, Target, Test, Value};
use std::alloc::Global;

/// Whether the words go on with `(`.
pub fn goes_on_with_open(words: &[Word]) -> bool
    ensures { result ≡ grammar.go_on_with_open words.now }
{
    match words {
        [word, ..] => matches!(word.symbol, Symbol::Sign(Sign::Open)),
        [] => false,
    }
}

// The number that `-` makes of another.
fn negative(number: u64) -> u64
    ensures { result ≡ grammar.negative number }
{
    number.wrapping_neg()
}

// A number.
fn number(words: &[Word]) -> Result<(u64, &[Word]), ParseFault>
    ensures { Gives (λ x. (x.0, x.1.now)) result (spec.number words.now) }
{
    let [word, rest @ ..] = words else {
        return Err(unexpected(words));
    };
    match word.symbol {
        Symbol::Number(number) => Ok((number, rest)),
        _ => Err(unexpected(words)),
    }
}

// What stands between operands.
fn bin_of(symbol: &Symbol) -> Option<Bin>
    ensures { result ≡ spec.bin_of symbol.now }
{
    match symbol {
        Symbol::Sign(Sign::Plus) => Some(Bin::Plus),
        Symbol::Sign(Sign::Minus) => Some(Bin::Minus),
        Symbol::Sign(Sign::Times) => Some(Bin::Times),
        Symbol::Sign(Sign::Caret) => Some(Bin::Outer),
        _ => None,
    }
}

/// What stands between a target and a right side.
pub fn op_of(symbol: &Symbol) -> Option<Op>
    ensures { result ≡ spec.op_of symbol.now }
{
    match symbol {
        Symbol::Sign(Sign::Equals) => Some(Op::Set),
        Symbol::Sign(Sign::PlusEquals) => Some(Op::Add),
        Symbol::Sign(Sign::MinusEquals) => Some(Op::Subtract),
        Symbol::Sign(Sign::TimesEquals) => Some(Op::Scale),
        _ => None,
    }
}

// How two values are compared.
fn test_of(symbol: &Symbol) -> Option<Test>
    ensures { result ≡ spec.test_of symbol.now }
{
    match symbol {
        Symbol::Sign(Sign::Less) => Some(Test::Less),
        Symbol::Sign(Sign::LessEqual) => Some(Test::LessEqual),
        Symbol::Sign(Sign::Greater) => Some(Test::Greater),
        Symbol::Sign(Sign::GreaterEqual) => Some(Test::GreaterEqual),
        Symbol::Sign(Sign::EqualEqual) => Some(Test::Equal),
        Symbol::Sign(Sign::NotEqual) => Some(Test::NotEqual),
        _ => None,
    }
}

// Whether an operand may end before these words.
fn operand_ends(words: &[Word]) -> bool
    ensures { result ≡ spec.is_next spec.ends_operand words.now }
{
    match words {
        [word, ..] => matches!(word.symbol, Symbol::LineEnd) || bin_of(&word.symbol).is_some(),
        [] => false,
    }
}

/// Whether a target may end before these words.
pub fn target_ends(words: &[Word]) -> bool
    ensures { result ≡ spec.is_next spec.ends_target words.now }
{
    match words {
        [word, ..] => op_of(&word.symbol).is_some(),
        [] => false,
    }
}

/// A name before what fits nothing has to be a scalar or an array.
pub fn known(line: u32, thing: Option<Thing>) -> Result<u16, ParseFault>
    ensures { Gives (λ n. n) result (spec.known line thing) }
{
    match thing {
        Some(Thing::Scalar(number)) => Ok(number),
        Some(Thing::Array(number)) => Ok(number),
        _ => Err(ParseFault::Undeclared { line }),
    }
}

// A name alone, by whether what follows it fits.
fn alone(
    line: u32,
    fits: bool,
    thing: Option<Thing>,
    words: &[Word],
) -> Result<(u16, &[Word]), ParseFault>
    ensures { Gives (λ x. (x.0, x.1.now)) result (spec.alone line fits thing words.now) }
{
    if fits {
        let number = scalar_by(line, thing)?;
        return Ok((number, words));
    }
    known(line, thing)?;
    Err(unexpected(words))
}

/// An operand.
#[tactic(auto, unfolding(crate::specs::Parsing::operand_at))]
pub fn operand_at<'a>(
    alloc: Global,
    names: &Names,
    words: &'a [Word],
) -> Result<(Operand, &'a [Word]), ParseFault>
    ensures { Gives (λ x. (x.0, x.1.now)) result (spec.operand_at (seen names.now) words.now) }
{
    let [word, rest @ ..] = words else {
        return Err(unexpected(words));
    };
    match &word.symbol {
        Symbol::Number(number) => Ok((Operand::Number(*number), rest)),
        Symbol::Sign(Sign::Minus) => {
            let (number, rest) = number(rest)?;
            Ok((Operand::Number(negative(number)), rest))
        }
        Symbol::Name(name) => named_operand(alloc, names, names.thing(name.as_slice()), words),
        _ => Err(unexpected(words)),
    }
}

// An operand that begins with a name.
fn named_operand<'a>(
    alloc: Global,
    names: &Names,
    thing: Option<Thing>,
    words: &'a [Word],
) -> Result<(Operand, &'a [Word]), ParseFault>
    ensures { Gives (λ x. (x.0, x.1.now)) result (spec.thing_operand (seen names.now) thing words.now) }
{
    let [word, rest @ ..] = words else {
        return Err(unexpected(words));
    };
    if goes_on_with_open(rest) {
        let (block, rest) = block(alloc, names, words)?;
        return Ok((Operand::Block(block), rest));
    }
    let (number, rest) = alone(word.line, operand_ends(rest), thing, rest)?;
    Ok((Operand::Scalar(number), rest))
}

/// A right side and its line end.
#[tactic(auto, unfolding(crate::specs::Parsing::right))]
pub fn right<'a>(
    alloc: Global,
    names: &Names,
    words: &'a [Word],
) -> Result<(Right, &'a [Word]), ParseFault>
    ensures { Gives (λ x. (x.0, x.1.now)) result (spec.right (seen names.now) words.now) }
{
    let (first, rest) = operand_at(alloc, names, words)?;
    right_after(alloc, names, first, rest)
}

// What follows the first operand.
fn right_after<'a>(
    alloc: Global,
    names: &Names,
    first: Operand,
    words: &'a [Word],
) -> Result<(Right, &'a [Word]), ParseFault>
    ensures { Gives (λ x. (x.0, x.1.now)) result (spec.right_after (seen names.now) first words.now) }
{
    let [word, rest @ ..] = words else {
        return Err(unexpected(words));
    };
    let Some(how) = bin_of(&word.symbol) else {
        let rest = line_end(words)?;
        return Ok((Right::One(first), rest));
    };
    let (second, rest) = operand_at(alloc, names, rest)?;
    let rest = line_end(rest)?;
    Ok((Right::Two(first, how, second), rest))
}

// What a name in a condition is.
fn value_of(line: u32, thing: Option<Thing>) -> Result<Value, ParseFault>
    ensures { Gives (λ v. v) result (spec.value_of line thing) }
{
    match thing {
        Some(Thing::Scalar(number)) => Ok(Value::Scalar(number)),
        Some(Thing::Index(number)) => Ok(Value::Index(number)),
        _ => Err(ParseFault::Undeclared { line }),
    }
}

// One side of a condition.
#[tactic(auto, unfolding(crate::specs::Parsing::value_at))]
fn value_at<'a>(names: &Names, words: &'a [Word]) -> Result<(Value, &'a [Word]), ParseFault>
    ensures { Gives (λ x. (x.0, x.1.now)) result (spec.value_at (seen names.now) words.now) }
{
    let [word, rest @ ..] = words else {
        return Err(unexpected(words));
    };
    match &word.symbol {
        Symbol::Number(number) => Ok((Value::Number(*number), rest)),
        Symbol::Sign(Sign::Minus) => {
            let (number, rest) = number(rest)?;
            Ok((Value::Number(negative(number)), rest))
        }
        Symbol::Name(name) => {
            let value = value_of(word.line, names.thing(name.as_slice()))?;
            Ok((value, rest))
        }
        _ => Err(unexpected(words)),
    }
}

/// A condition and its line end.
#[tactic(auto, unfolding(crate::specs::Parsing::condition))]
pub fn condition<'a>(names: &Names, words: &'a [Word]) -> Result<(Cond, &'a [Word]), ParseFault>
    ensures { Gives (λ x. (x.0, x.1.now)) result (spec.condition (seen names.now) words.now) }
{
    let (left, rest) = value_at(names, words)?;
    condition_after(names, left, rest)
}

// What follows the left side.
fn condition_after<'a>(
    names: &Names,
    left: Value,
    words: &'a [Word],
) -> Result<(Cond, &'a [Word]), ParseFault>
    ensures { Gives (λ x. (x.0, x.1.now)) result (spec.cond_after (seen names.now) left words.now) }
{
    let [word, rest @ ..] = words else {
        return Err(unexpected(words));
    };
    let Some(test) = test_of(&word.symbol) else {
        return Err(unexpected(words));
    };
    let (right, rest) = value_at(names, rest)?;
    let rest = line_end(rest)?;
    Ok((Cond { left, test, right }, rest))
}

/// How `put` and `prepare` write.
#[tactic(auto, unfolding(crate::specs::Parsing::access))]
pub fn access(words: &[Word]) -> Result<(Access, &[Word]), ParseFault>
    ensures { Gives (λ x. (x.0, x.1.now)) result (spec.access words.now) }
{
    let [word, rest @ ..] = words else {
        return Err(unexpected(words));
    };
    match &word.symbol {
        Symbol::Sign(Sign::Equals) => Ok((Access::Store, rest)),
        Symbol::Sign(Sign::PlusEquals) => Ok((Access::Add, rest)),
        Symbol::Name(name) if name.as_slice() == b"max".as_slice() => {
            let rest = equals(rest)?;
            Ok((Access::Max, rest))
        }
        _ => Err(unexpected(words)),
    }
}

/// The target of an assignment.
#[tactic(auto, unfolding(crate::specs::Parsing::target_at))]
pub fn target_at<'a>(
    alloc: Global,
    names: &Names,
    words: &'a [Word],
) -> Result<(Target, &'a [Word]), ParseFault>
    ensures { Gives (λ x. (x.0, x.1.now)) result (spec.target_at (seen names.now) words.now) }
{
    let [word, rest @ ..] = words else {
        return Err(unexpected(words));
    };
    let Symbol::Name(name) = &word.symbol else {
        return Err(unexpected(words));
    };
    if goes_on_with_open(rest) {
        let (block, rest) = block(alloc, names, words)?;
        return Ok((Target::Block(block), rest));
    }
    let (number, rest) = alone(
        word.line,
        target_ends(rest),
        names.thing(name.as_slice()),
        rest,
    )?;
    Ok((Target::Scalar(number), rest))
}
