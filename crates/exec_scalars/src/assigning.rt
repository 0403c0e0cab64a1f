//! Assignments to scalars.

ghost use Rattle.std.specs.Prelude.{◌≡◌, ℕ, List};
ghost use Rattle.exec_scalars.specs.Answers.{EndsWith};
ghost use Rattle.exec_scalars.specs.Numbers.{AreNumbers};
ghost use Rattle.sial_meaning.specs.LocalStep.{scalar_value, to_scalar};
ghost use Rattle.sial_meaning.specs.Number as spec;
ghost use Rattle.sial_meaning.specs.Own.{Own};
ghost use Rattle.sial_meaning.specs.Right.{Side};
ghost use Rattle.sial_meaning.specs.Setting.{Setting};

use crate::scalars::Scalars;
use sial_meaning::TrapKind;
use sial_syntax::{Op, ScalarClass};

impl Scalars {
    /// Assigns a number to a scalar of a class; one that isn't set has no old number to be combined with.
    pub fn assign(
        &mut self,
        class: ScalarClass,
        scalar: u16,
        op: Op,
        number: u64,
    ) -> Result<(), TrapKind>
        ensures { (g : Setting) (side : Side) (own : Own) (partials : List ℕ) → AreNumbers self.old own partials → scalar_value g side ≡ number
            → EndsWith self.old self.new own (to_scalar g class scalar op side own partials) result }
    {
        if let ScalarClass::Partial = class {
            self.set_partial(scalar, combined(op, self.partial(scalar), number));
            return Ok(());
        }
        if let Op::Set = op {
            self.set(scalar, number);
            return Ok(());
        }
        match self.get(scalar) {
            Some(old) => {
                self.set(scalar, combined(op, old, number));
                Ok(())
            }
            None => Err(TrapKind::UnsetScalar),
        }
    }
}

// What an assignment makes of the old number.
fn combined(op: Op, old: u64, number: u64) -> u64
    ensures { result ≡ spec.combined op old number }
{
    match op {
        Op::Set => number,
        Op::Add => old.wrapping_add(number),
        Op::Subtract => old.wrapping_sub(number),
        Op::Scale => old.wrapping_mul(number),
    }
}
