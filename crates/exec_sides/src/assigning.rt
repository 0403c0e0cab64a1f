//! Assignments to blocks.

ghost use Rattle.std.specs.Prelude.{◌≡◌};
ghost use Rattle.sial_meaning.specs.Right as sides;
ghost use Rattle.sial_syntax.specs.declared.operand.Op.TheVariants as op;
ghost use Rattle.exec_sides.specs.Fits.{CanAssign, IsAssigned};
ghost use Rattle.exec_sides.specs.Seen.{op_of, seen, side_of, sight_of, term_of};

use crate::contracting::contract_by_name;
use crate::copying::copy_by_name;
use crate::indices::have_same;
use crate::parts::copy_part;
use crate::scaling::meet_scaled;
use crate::seen::{Seen, Shape};
use crate::side::{Side, Term};
use crate::sums::join_by_name;
use crate::uniform::meet_number;
use block_math::scale;
use kernel_permute::How;
use sial_syntax::{Bin, Op};

/// Makes of a target's numbers what an assignment makes of them.
///
/// The right side's blocks and the target are named where the indices have numbers, and their indices agree as the
/// rules of shape say. No memory is taken.
pub fn assign(op: Op, to: &Shape, side: &Side, into: &mut [u64])
    requires fits { CanAssign op (sight_of to.now into.old) (side_of side.now) }
    ensures value { IsAssigned op (sight_of to.now into.old) (side_of side.now) into.new }
{
    match op {
        Op::Set => meet(to, side, into, How::Set),
        Op::Add => meet(to, side, into, How::Add),
        Op::Subtract => meet(to, side, into, How::Subtract),
        Op::Scale => multiply(to, side, into),
    }
}

// Each number is multiplied by the number that stands alone.
fn multiply(to: &Shape, side: &Side, into: &mut [u64])
    requires fits { CanAssign op.Scale (sight_of to.now into.old) (side_of side.now) }
    ensures { IsAssigned op.Scale (sight_of to.now into.old) (side_of side.now) into.new }
{
    match side {
        Side::Alone(term) => match term {
            Term::Number(number) => scale(into, *number),
            Term::Block(_) => unreachable!(),
        },
        Side::Joined(..) => unreachable!(),
    }
}

// Each number meets that of the right side.
fn meet(to: &Shape, side: &Side, into: &mut [u64], how: How)
    requires fits { CanAssign (op_of how) (sight_of to.now into.old) (side_of side.now) }
    ensures { IsAssigned (op_of how) (sight_of to.now into.old) (side_of side.now) into.new }
{
    match side {
        Side::Alone(term) => meet_term(to, term, into, how),
        Side::Joined(left, bin, right) => meet_pair(to, left, *bin, right, into, how),
    }
}

// Each number meets one operand.
fn meet_term(to: &Shape, term: &Term, into: &mut [u64], how: How)
    requires fits { CanAssign (op_of how) (sight_of to.now into.old) (sides.Alone (term_of term.now)) }
    ensures { IsAssigned (op_of how) (sight_of to.now into.old) (sides.Alone (term_of term.now)) into.new }
{
    match term {
        Term::Number(number) => meet_number(to, *number, into, how),
        Term::Block(from) => meet_block(to, from, into, how),
    }
}

// Each number meets that of a block: one with the same indices, one of which the target is a part, or a part of the target.
fn meet_block(to: &Shape, from: &Seen, into: &mut [u64], how: How)
    requires fits { CanAssign (op_of how) (sight_of to.now into.old) (sides.Alone (sides.Shown (seen from.now))) }
    ensures { IsAssigned (op_of how) (sight_of to.now into.old) (sides.Alone (sides.Shown (seen from.now))) into.new }
{
    if have_same(to.at, from.shape.at) {
        copy_by_name(to, from, into, how);
    } else {
        copy_part(to, from, into, how);
    }
}

// Each number meets what two operands come to.
fn meet_pair(to: &Shape, left: &Term, bin: Bin, right: &Term, into: &mut [u64], how: How)
    requires fits { CanAssign (op_of how) (sight_of to.now into.old) (sides.Joined (term_of left.now) bin (term_of right.now)) }
    ensures { IsAssigned (op_of how) (sight_of to.now into.old) (sides.Joined (term_of left.now) bin (term_of right.now)) into.new }
{
    match left {
        Term::Block(block) => match right {
            Term::Block(other) => meet_blocks(to, block, bin, other, into, how),
            Term::Number(number) => meet_scaled(to, block, *number, into, how),
        },
        Term::Number(number) => match right {
            Term::Block(block) => meet_scaled(to, block, *number, into, how),
            Term::Number(_) => unreachable!(),
        },
    }
}

// Each number meets what two blocks come to.
fn meet_blocks(to: &Shape, left: &Seen, bin: Bin, right: &Seen, into: &mut [u64], how: How)
    requires fits { CanAssign (op_of how) (sight_of to.now into.old) (sides.Joined (sides.Shown (seen left.now)) bin (sides.Shown (seen right.now))) }
    ensures { IsAssigned (op_of how) (sight_of to.now into.old) (sides.Joined (sides.Shown (seen left.now)) bin (sides.Shown (seen right.now))) into.new }
{
    match bin {
        Bin::Plus => join_by_name(to, left, false, right, into, how),
        Bin::Minus => join_by_name(to, left, true, right, into, how),
        Bin::Times => contract_by_name(to, left, right, into, how),
        Bin::Outer => contract_by_name(to, left, right, into, how),
    }
}
