//! The forms of assignments.

ghost use Rattle.std.specs.Prelude.{◌≡◌};
ghost use Rattle.sial_syntax.specs.Agreeing as spec;

use sial_syntax::{Bin, Op, Operand, Right, Target};

/// Whether an assignment has one of its forms.
pub fn form_stands(target: &Target, op: Op, right: &Right) -> bool
    ensures { result ≡ spec.form_stands target.now op right.now }
{
    match op {
        Op::Scale => match right {
            Right::One(operand) => !is_block(operand),
            Right::Two(..) => false,
        },
        Op::Set | Op::Add | Op::Subtract => match (target, right) {
            (Target::Scalar(_), Right::One(operand)) => !is_block(operand),
            (Target::Scalar(_), Right::Two(left, bin, other)) => {
                scalar_form(is_block(left), is_block(other), *bin)
            }
            (Target::Block(_), Right::One(_)) => true,
            (Target::Block(_), Right::Two(left, bin, other)) => {
                block_form(is_block(left), is_block(other), *bin)
            }
        },
    }
}

// Whether an operand is a block.
fn is_block(operand: &Operand) -> bool
    ensures { result ≡ spec.is_block operand.now }
{
    matches!(operand, Operand::Block(_))
}

// Whether operands of which some are blocks may be combined so for a block.
fn block_form(left: bool, right: bool, bin: Bin) -> bool
    ensures { result ≡ spec.block_form left right bin }
{
    match (left, right, bin) {
        (true, true, _) | (true, false, Bin::Times) | (false, true, Bin::Times) => true,
        _ => false,
    }
}

// Whether operands of which some are blocks may be combined so for a scalar.
fn scalar_form(left: bool, right: bool, bin: Bin) -> bool
    ensures { result ≡ spec.scalar_form left right bin }
{
    match (left, right, bin) {
        (false, false, Bin::Plus | Bin::Minus | Bin::Times) | (true, true, Bin::Times) => true,
        _ => false,
    }
}
