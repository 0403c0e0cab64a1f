//! The shared blocks that a right side names.

ghost use Rattle.std.specs.Prelude.{◌≡◌, ◌≤◌, length, slice_index_or};
ghost use Rattle.sial_meaning.specs.LocalStep.{is_shared_kind, shared_in, shared_operand};
ghost use Rattle.sial_meaning.specs.Setting.{no_array};
ghost use Rattle.sial_syntax.specs.Spaces.{Spaces};
ghost use Rattle.sequential_costs.specs.Over.{over};

use sial_syntax::{ArrayDecl, ArrayKind, Operand, Right};

/// How many shared blocks a right side names.
pub fn shared_blocks(arrays: &[ArrayDecl], right: &Right) -> u64
    ensures count { (spaces : Spaces) → result ≡ length (shared_in (over spaces arrays.now) right.now) }
    ensures few { result ≤ 2 }
{
    match right {
        Right::One(operand) => shared_block(arrays, operand),
        Right::Two(left, _, right) => shared_block(arrays, left) + shared_block(arrays, right),
    }
}

// 1 where an operand is a shared block, else 0.
#[tactic(auto, using(crate::proofs::ReadLemmas::shared, crate::proofs::ReadLemmas::own))]
fn shared_block(arrays: &[ArrayDecl], operand: &Operand) -> u64
    ensures count { (spaces : Spaces) → result ≡ length (shared_operand (over spaces arrays.now) operand.now) }
    ensures few { result ≤ 1 }
{
    match operand {
        Operand::Block(block) if is_shared(arrays, block.array) => 1,
        _ => 0,
    }
}

// Whether an array is shared; one that isn't declared is a temp.
fn is_shared(arrays: &[ArrayDecl], array: u16) -> bool
    ensures { result ≡ is_shared_kind (slice_index_or arrays.now array no_array).kind }
{
    match arrays.get(array as usize) {
        Some(array) => matches!(array.kind, ArrayKind::Distributed | ArrayKind::Served),
        None => false,
    }
}
