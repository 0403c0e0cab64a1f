//! Copies of parts of statements.

ghost use Rattle.std.specs.Prelude.{◌≡◌, IfOk};

use sial_syntax::{BlockRef, Operand, Right, Target, Tuple};
use std::alloc::{AllocError, Global};

/// A copy of a block's name.
pub fn block(alloc: Global, block: &BlockRef) -> Result<BlockRef, AllocError>
    ensures { IfOk result (λ b. b ≡ block.now) }
{
    let at = Tuple::from_slice(alloc, block.at.as_slice())?;
    Ok(BlockRef {
        array: block.array,
        at,
    })
}

/// A copy of a target.
pub fn target(alloc: Global, target: &Target) -> Result<Target, AllocError>
    ensures { IfOk result (λ t. t ≡ target.now) }
{
    match target {
        Target::Scalar(scalar) => Ok(Target::Scalar(*scalar)),
        Target::Block(named) => Ok(Target::Block(block(alloc, named)?)),
    }
}

// A copy of an operand.
fn operand(alloc: Global, operand: &Operand) -> Result<Operand, AllocError>
    ensures { IfOk result (λ o. o ≡ operand.now) }
{
    match operand {
        Operand::Number(number) => Ok(Operand::Number(*number)),
        Operand::Scalar(scalar) => Ok(Operand::Scalar(*scalar)),
        Operand::Block(named) => Ok(Operand::Block(block(alloc, named)?)),
    }
}

/// A copy of a right side.
pub fn right(alloc: Global, right: &Right) -> Result<Right, AllocError>
    ensures { IfOk result (λ r. r ≡ right.now) }
{
    match right {
        Right::One(first) => Ok(Right::One(operand(alloc, first)?)),
        Right::Two(first, bin, second) => {
            let first = operand(alloc, first)?;
            let second = operand(alloc, second)?;
            Ok(Right::Two(first, *bin, second))
        }
    }
}
