//! Right sides for scalars.

ghost use Rattle.std.specs.Prelude.{◌≡◌, [], ◌∷◌};
ghost use Rattle.sial_meaning.specs.Right as sides;
ghost use Rattle.sial_syntax.specs.Agreeing.{same_set};
ghost use Rattle.exec_sides.specs.Contracting.{IsContraction, summed};
ghost use Rattle.exec_sides.specs.Fits.{HasNumber, IsNumberOf};
ghost use Rattle.exec_sides.specs.Joined.{of_numbers};
ghost use Rattle.exec_sides.specs.Seen.{seen, side_of, term_of};

use crate::contracting::contract_by_name;
use crate::seen::{Seen, Shape};
use crate::side::{Side, Term};
use kernel_permute::How;
use sial_syntax::Bin;

/// The number of a right side for a scalar.
pub fn number(side: &Side) -> u64
    requires fits { HasNumber (side_of side.now) }
    ensures value { IsNumberOf (side_of side.now) result }
{
    match side {
        Side::Alone(term) => match term {
            Term::Number(number) => *number,
            Term::Block(_) => unreachable!(),
        },
        Side::Joined(left, bin, right) => of_pair(left, *bin, right),
    }
}

// The number that two operands come to.
fn of_pair(left: &Term, bin: Bin, right: &Term) -> u64
    requires fits { HasNumber (sides.Joined (term_of left.now) bin (term_of right.now)) }
    ensures { IsNumberOf (sides.Joined (term_of left.now) bin (term_of right.now)) result }
{
    match left {
        Term::Number(number) => match right {
            Term::Number(other) => of_numbers(*number, bin, *other),
            Term::Block(_) => unreachable!(),
        },
        Term::Block(block) => match right {
            Term::Block(other) => of_blocks(block, other),
            Term::Number(_) => unreachable!(),
        },
    }
}

// The number that two numbers come to.
fn of_numbers(number: u64, bin: Bin, other: u64) -> u64
    ensures { result ≡ of_numbers bin number other }
{
    match bin {
        Bin::Plus => number.wrapping_add(other),
        Bin::Minus => number.wrapping_sub(other),
        Bin::Times | Bin::Outer => number.wrapping_mul(other),
    }
}

// The sum of the products of two blocks at all positions of their indices.
fn of_blocks(block: &Seen, other: &Seen) -> u64
    requires fits { IsContraction (record { at = []; extents = []; words = 0 ∷ [] }) (seen block.now) (seen other.now) }
    ensures { result ≡ summed [] [] (seen block.now) (seen other.now) }
{
    let shape = Shape {
        at: &[],
        extents: &[],
    };
    let mut sum = [0u64];
    contract_by_name(&shape, block, other, &mut sum, How::Set);
    sum[0]
}
