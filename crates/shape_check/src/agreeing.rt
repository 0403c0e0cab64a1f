//! Index sets that agree in an assignment.

ghost use Rattle.std.specs.Prelude.{◌≡◌};
ghost use Rattle.sial_syntax.specs.Agreeing as spec;
ghost use Rattle.shape_check.specs.Known.{tree_of};

use crate::declared::Declared;
use crate::lists::{is_difference, is_union, same_set, share_any};
use sial_syntax::{Bin, Operand, Right, Target};

/// Whether the indices of an assignment that has one of its forms agree.
pub fn assignment_agrees(declared: &Declared, target: &Target, right: &Right) -> bool
    ensures { result ≡ spec.assignment_agrees (tree_of declared.now) target.now right.now }
{
    match target {
        Target::Scalar(_) => scalar_agrees(right),
        Target::Block(block) => block_agrees(declared, block.at.as_slice(), right),
    }
}

// Whether the indices of a right side agree with a scalar.
fn scalar_agrees(right: &Right) -> bool
    ensures { result ≡ spec.scalar_agrees right.now }
{
    match right {
        Right::Two(Operand::Block(left), _, Operand::Block(other)) => {
            same_set(left.at.as_slice(), other.at.as_slice())
        }
        _ => true,
    }
}

// Whether the indices of a right side agree with those of a block.
fn block_agrees(declared: &Declared, target: &[u16], right: &Right) -> bool
    ensures { result ≡ spec.block_agrees (tree_of declared.now) target.now right.now }
{
    match right {
        Right::One(Operand::Block(source)) => copy_agrees(declared, target, source.at.as_slice()),
        Right::One(_) => true,
        Right::Two(Operand::Block(left), bin, Operand::Block(other)) => {
            pair_agrees(target, *bin, left.at.as_slice(), other.at.as_slice())
        }
        Right::Two(Operand::Block(block), _, _) => same_set(target, block.at.as_slice()),
        Right::Two(_, _, Operand::Block(block)) => same_set(target, block.at.as_slice()),
        Right::Two(..) => true,
    }
}

// Whether a copy's indices agree: the same in any order, a slice or an insertion.
fn copy_agrees(declared: &Declared, target: &[u16], source: &[u16]) -> bool
    ensures { result ≡ spec.copy_agrees (tree_of declared.now) target.now source.now }
{
    same_set(target, source)
        || (cuts_all(declared, target, source) || cuts_all(declared, source, target))
}

// Whether a block cuts another, position by position.
fn cuts_all(declared: &Declared, parts: &[u16], wholes: &[u16]) -> bool
    ensures { result ≡ spec.cuts_all (tree_of declared.now) parts.now wholes.now }
{
    match parts {
        [] => wholes.is_empty(),
        [part, parts @ ..] => match wholes {
            [] => false,
            [whole, wholes @ ..] => {
                (part == whole || declared.is_sub_of(*part, *whole))
                    && cuts_all(declared, parts, wholes)
            }
        },
    }
}

// Whether two blocks' indices agree with the target's.
fn pair_agrees(target: &[u16], bin: Bin, left: &[u16], right: &[u16]) -> bool
    ensures { result ≡ spec.pair_agrees target.now bin left.now right.now }
{
    match bin {
        Bin::Plus | Bin::Minus => same_set(target, left) && same_set(target, right),
        Bin::Times => is_difference(target, left, right),
        Bin::Outer => !share_any(left, right) && is_union(target, left, right),
    }
}
