//! Start values.

ghost use Rattle.std.specs.Prelude.{◌≡◌, [], false, map, IfOk};
ghost use Rattle.std.specs.List.{list_any};
ghost use Rattle.input_text.specs.Adding as given;
ghost use Rattle.input_text.specs.Reading as spec;
ghost use Rattle.input_text.specs.declared.values.Value.{Value};

use crate::word::Word;
use std::alloc::{AllocError, Global};
use std::marker::Model;

/// A start value as it is written.
#[derive(Clone, Copy)]
pub struct Value {
    /// Whether `-` stands before it.
    pub negative: bool,
    /// The number; none where it is above 2^64 - 1.
    pub number: Option<u64>,
}

impl Value {
    /// Whether the number is above 2^64 - 1.
    pub fn is_wide(&self) -> bool
        ensures { result ≡ given.is_wide self.now.number }
    {
        self.number.is_none()
    }

    /// The number, or its opposite behind a `-`.
    pub fn number(&self) -> u64
        ensures { result ≡ given.number_of self.now }
    {
        let number = self.number.unwrap_or(0);
        if self.negative {
            opposite(number)
        } else {
            number
        }
    }
}

/// Start values in order, which contracts see as their list.
#[derive(Drop)]
pub struct Values {
    values: Vec<Value>,
}

impl Model for Values {
    ghost use Rattle.std.specs.Prelude.{List};
    ghost use Rattle.input_text.specs.declared.values.Value.{Value as StartValue};

    ghost Value = { List StartValue };

    ghost view = { λ v. v.values.items };
}

impl Values {
    /// These values, with no memory taken.
    pub fn from_vec(values: Vec<Value>) -> Values
        ensures { result ≡ values.items }
    {
        Values { values }
    }

    /// The values.
    pub fn as_slice(&self) -> &[Value]
        ensures { result.now ≡ self.now }
    {
        self.values.as_slice()
    }
}

/// Whether a value is above 2^64 - 1.
pub fn has_wide(values: &[Value]) -> bool
    ensures { result ≡ list_any (λ (v : Value). given.is_wide v.number) values.now }
{
    for value in values {
        if value.is_wide() {
            return true;
        }
    }
    false
}

/// The values that words are; none where they aren't numbers, each behind at most one `-`.
pub fn values_in(alloc: Global, words: &[Word]) -> Result<Option<Values>, AllocError>
    ensures { IfOk result (λ values. values ≡ spec.values_from [] false words.now) }
{
    let mut values = Vec::new(alloc);
    let mut negative = false;
    for word in words {
        match (negative, word) {
            (_, Word::Number(number)) => {
                values.push(Value {
                    negative,
                    number: *number,
                })?;
                negative = false;
            }
            (false, Word::Minus) => negative = true,
            _ => return Ok(None),
        }
    }
    if negative {
        return Ok(None);
    }
    Ok(Some(Values::from_vec(values)))
}

/// The numbers that values are.
pub fn numbers_of(alloc: Global, values: &[Value]) -> Result<Vec<u64>, AllocError>
    ensures { IfOk result (λ numbers. numbers.items ≡ map given.number_of values.now) }
{
    let mut numbers = Vec::new(alloc);
    for value in values {
        numbers.push(value.number())?;
    }
    Ok(numbers)
}

// The number that wraps around to 0 with another.
fn opposite(number: u64) -> u64
    ensures { result ≡ given.opposite number }
{
    match number {
        0 => 0,
        _ => u64::MAX - number + 1,
    }
}
