//! The rules that one statement breaks where it stands, but for those inside it.

ghost use Rattle.std.specs.Prelude.{◌≡◌, IfOk};
ghost use Rattle.sial_syntax.specs.Agreeing.{has_kind};
ghost use Rattle.sial_syntax.specs.Shapes.{is_shared_target};
ghost use Rattle.sial_syntax.specs.Tree.{plain_form};
ghost use Rattle.shape_check.specs.Breaks as spec;
ghost use Rattle.shape_check.specs.Known.{IsKnown, tree_of};

use crate::agreeing::assignment_agrees;
use crate::blocks::{block_breaks, integrals_break, named_breaks, transfer_breaks};
use crate::broken::Broken;
use crate::conditions::{are_bound, is_bound, name_scalars};
use crate::declarations::any_sub;
use crate::declared::Declared;
use crate::forms::form_stands;
use crate::lists::{contains, has_twice, share_any};
use crate::slots::slots_break;
use sial_syntax::{ArrayKind, Cond, Form, Op, Operand, Right, Target};
use std::alloc::{AllocError, Global};

/// The rules that a statement breaks.
pub fn form_breaks(
    alloc: Global,
    declared: &Declared,
    bound: &[u16],
    form: &Form,
) -> Result<Broken, AllocError>
    requires { IsKnown declared.now }
    ensures { IfOk result (λ broken. broken ≡ spec.form_breaks (tree_of declared.now) bound.now (plain_form form.now)) }
{
    Ok(match form {
        Form::Do { index, .. } => loop_breaks(declared, bound, *index),
        Form::DoIn { sub, index, .. } => pieces_break(declared, bound, *sub, *index),
        Form::Pardo {
            indices,
            wheres,
            ..
        } => pardo_breaks(declared, bound, indices.as_slice(), wheres.as_slice()),
        Form::If { cond, .. } => condition_breaks(bound, *cond),
        Form::Assign { target, op, right } => {
            assignment_breaks(declared, bound, target, *op, right)
        }
        Form::Get { block } => {
            named_breaks(
                declared,
                bound,
                is_distributed(declared, block.array),
                block,
            )
        }
        Form::Request { block } => {
            named_breaks(declared, bound, is_served(declared, block.array), block)
        }
        Form::Put { block, from, .. } => transfer_breaks(
            declared,
            bound,
            is_distributed(declared, block.array),
            block,
            from,
        ),
        Form::Prepare { block, from, .. } => transfer_breaks(
            declared,
            bound,
            is_served(declared, block.array),
            block,
            from,
        ),
        Form::Create { array } | Form::Delete { array } => {
            Broken::only_kind(!is_distributed(declared, *array))
        }
        Form::Allocate { array, at } | Form::Deallocate { array, at } => {
            slots_break(alloc, declared, bound, *array, at.as_slice())?
        }
        Form::Integrals { block } => integrals_break(declared, bound, block),
        Form::Call { .. }
        | Form::Collective { .. }
        | Form::SipBarrier
        | Form::ServerBarrier
        | Form::Print { .. }
        | Form::PrintScalar { .. } => Broken::nothing(),
    })
}

// Whether an array is distributed.
fn is_distributed(declared: &Declared, array: u16) -> bool
    ensures { result ≡ has_kind (tree_of declared.now) ArrayKind.Distributed array }
{
    matches!(declared.array_kind(array), ArrayKind::Distributed)
}

// Whether an array is served.
fn is_served(declared: &Declared, array: u16) -> bool
    ensures { result ≡ has_kind (tree_of declared.now) ArrayKind.Served array }
{
    matches!(declared.array_kind(array), ArrayKind::Served)
}

// A loop over an index.
fn loop_breaks(declared: &Declared, bound: &[u16], index: u16) -> Broken
    ensures { result ≡ spec.loop_breaks (tree_of declared.now) bound.now index }
{
    Broken {
        unbound: false,
        rebound: contains(bound, index),
        repeated: false,
        kind: declared.is_sub(index),
        indices: false,
        writable: false,
    }
}

// A loop over the pieces of an index.
fn pieces_break(declared: &Declared, bound: &[u16], sub: u16, index: u16) -> Broken
    ensures { result ≡ spec.pieces_break (tree_of declared.now) bound.now sub index }
{
    Broken {
        unbound: !contains(bound, index),
        rebound: contains(bound, sub),
        repeated: false,
        kind: !declared.is_sub_of(sub, index),
        indices: false,
        writable: false,
    }
}

// A pardo's indices and conditions.
fn pardo_breaks(declared: &Declared, bound: &[u16], indices: &[u16], wheres: &[Cond]) -> Broken
    ensures { result ≡ spec.pardo_breaks (tree_of declared.now) bound.now indices.now wheres.now }
{
    Broken {
        unbound: !are_bound(indices, bound, wheres),
        rebound: share_any(indices, bound) || has_twice(indices),
        repeated: false,
        kind: any_sub(declared, indices) || name_scalars(wheres),
        indices: false,
        writable: false,
    }
}

// The condition of an `if`.
fn condition_breaks(bound: &[u16], cond: Cond) -> Broken
    ensures { result ≡ spec.condition_breaks bound.now cond }
{
    Broken {
        unbound: !is_bound(&[], bound, cond),
        rebound: false,
        repeated: false,
        kind: false,
        indices: false,
        writable: false,
    }
}

// An assignment.
fn assignment_breaks(
    declared: &Declared,
    bound: &[u16],
    target: &Target,
    op: Op,
    right: &Right,
) -> Broken
    requires { IsKnown declared.now }
    ensures { result ≡ spec.assignment_breaks (tree_of declared.now) bound.now target.now op right.now }
{
    let blocks = target_breaks(declared, bound, target).or(right_breaks(declared, bound, right));
    blocks.or(Broken {
        unbound: false,
        rebound: false,
        repeated: false,
        kind: !form_stands(target, op, right),
        indices: !assignment_agrees(declared, target, right),
        writable: is_shared(declared, target),
    })
}

// Whether a target is a shared block.
fn is_shared(declared: &Declared, target: &Target) -> bool
    ensures { result ≡ is_shared_target (tree_of declared.now) target.now }
{
    match target {
        Target::Scalar(_) => false,
        Target::Block(block) => !declared.is_own(block.array),
    }
}

// A target.
fn target_breaks(declared: &Declared, bound: &[u16], target: &Target) -> Broken
    requires { IsKnown declared.now }
    ensures { result ≡ spec.target_breaks (tree_of declared.now) bound.now target.now }
{
    match target {
        Target::Scalar(_) => Broken::nothing(),
        Target::Block(block) => block_breaks(declared, bound, block),
    }
}

// A right side's operands.
fn right_breaks(declared: &Declared, bound: &[u16], right: &Right) -> Broken
    requires { IsKnown declared.now }
    ensures { result ≡ spec.right_breaks (tree_of declared.now) bound.now right.now }
{
    match right {
        Right::One(operand) => operand_breaks(declared, bound, operand),
        Right::Two(left, _, other) => {
            operand_breaks(declared, bound, left).or(operand_breaks(declared, bound, other))
        }
    }
}

// An operand.
fn operand_breaks(declared: &Declared, bound: &[u16], operand: &Operand) -> Broken
    requires { IsKnown declared.now }
    ensures { result ≡ spec.operand_breaks (tree_of declared.now) bound.now operand.now }
{
    match operand {
        Operand::Number(_) | Operand::Scalar(_) => Broken::nothing(),
        Operand::Block(block) => block_breaks(declared, bound, block),
    }
}
