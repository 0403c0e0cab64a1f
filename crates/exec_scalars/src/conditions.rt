//! Conditions of `if` and `where`.

ghost use Rattle.std.specs.Prelude.{◌≡◌};
ghost use Rattle.exec_scalars.specs.Answers.{OfWorkers};
ghost use Rattle.sial_meaning.specs.Meaning as spec;
ghost use Rattle.sial_meaning.specs.Meaning.{value_in};

use crate::scalars::Scalars;
use sial_meaning::TrapKind;
use sial_syntax::{Cond, Test, Value};

impl Scalars {
    /// Whether a condition holds where the indices have these numbers. Its values are looked for from left to right.
    pub fn condition(&self, values: &[u32], cond: &Cond) -> Result<bool, TrapKind>
        ensures { OfWorkers self.now values.now (λ own. result ≡ spec.condition own cond.now) }
    {
        let left = self.value(values, cond.left)?;
        let right = self.value(values, cond.right)?;
        Ok(holds(cond.test, left, right))
    }

    // A value of a condition.
    fn value(&self, values: &[u32], value: Value) -> Result<u64, TrapKind>
        ensures { OfWorkers self.now values.now (λ own. result ≡ value_in own value) }
    {
        match value {
            Value::Number(number) => Ok(number),
            Value::Scalar(scalar) => match self.get(scalar) {
                Some(number) => Ok(number),
                None => Err(TrapKind::UnsetScalar),
            },
            Value::Index(index) => Ok(values.get(index as usize).copied().unwrap_or(0) as u64),
        }
    }
}

// Whether a comparison holds.
fn holds(test: Test, left: u64, right: u64) -> bool
    ensures { result ≡ spec.holds test left right }
{
    match test {
        Test::Less => left < right,
        Test::LessEqual => left <= right,
        Test::Greater => left > right,
        Test::GreaterEqual => left >= right,
        Test::Equal => left == right,
        Test::NotEqual => left != right,
    }
}
