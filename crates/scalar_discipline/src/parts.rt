//! The scalars and arrays that a statement names.

ghost use Rattle.std.specs.Prelude.{◌≡◌, ◌++◌, ◌∷◌, [], map, flat_map, OnOk, option_to_list};
ghost use Rattle.sial_syntax.specs.Parts as spec;
ghost use Rattle.sial_syntax.specs.Sides.{is_accumulation};
ghost use Rattle.sial_syntax.specs.Tree.{plain_form};
ghost use Rattle.scalar_discipline.specs.Parts.{arrays_of, block_arrays};

use sial_syntax::{BlockRef, Form, Op, Operand, Right, Target};
use std::alloc::AllocError;

/// The scalar that a statement writes.
pub fn scalar_written(form: &Form) -> Option<u16>
    ensures { option_to_list result ≡ spec.scalars_written (plain_form form.now) }
{
    match form {
        Form::Assign { target, .. } => match target {
            Target::Scalar(scalar) => Some(*scalar),
            Target::Block(_) => None,
        },
        Form::Collective { into, .. } => Some(*into),
        _ => None,
    }
}

/// Whether a statement that writes a scalar only adds to it or subtracts.
pub fn is_accumulation(form: &Form) -> bool
    ensures { result ≡ is_accumulation (plain_form form.now) }
{
    match form {
        Form::Assign { op, .. } => matches!(op, Op::Add | Op::Subtract),
        _ => true,
    }
}

/// Adds the arrays that a statement names.
#[tactic(auto, using(crate::proofs::ListLemmas::nothing_more, crate::proofs::ListLemmas::branches_none))]
pub fn arrays_named(form: &Form, into: &mut Vec<u16>) -> Result<(), AllocError>
    ensures { OnOk result (into.new.items ≡ into.old.items ++ spec.arrays_named (plain_form form.now)) }
{
    match form {
        Form::Create { array } | Form::Delete { array } => {
            into.push(*array)?;
        }
        Form::Allocate { array, .. } | Form::Deallocate { array, .. } => {
            into.push(*array)?;
        }
        Form::Get { block } | Form::Request { block } | Form::Integrals { block } => {
            into.push(block.array)?;
        }
        Form::Put { block, from, .. } | Form::Prepare { block, from, .. } => {
            pair_arrays(block, from, into)?;
        }
        Form::Assign { target, right, .. } => assignment_arrays(target, right, into)?,
        Form::Do { .. } | Form::DoIn { .. } | Form::Pardo { .. } | Form::If { .. } => (),
        Form::Call { .. } | Form::Collective { .. } => (),
        Form::SipBarrier | Form::ServerBarrier => (),
        Form::Print { .. } | Form::PrintScalar { .. } => (),
    }
    Ok(())
}

// Adds the arrays of two blocks.
fn pair_arrays(block: &BlockRef, from: &BlockRef, into: &mut Vec<u16>) -> Result<(), AllocError>
    ensures { OnOk result (into.new.items ≡ into.old.items ++ block_arrays (block.now ∷ from.now ∷ [])) }
{
    into.push(block.array)?;
    into.push(from.array)?;
    Ok(())
}

// Adds the arrays that an assignment names.
fn assignment_arrays(target: &Target, right: &Right, into: &mut Vec<u16>) -> Result<(), AllocError>
    ensures { OnOk result (into.new.items ≡ into.old.items ++ block_arrays (spec.target_block target.now ++ arrays_of right.now)) }
{
    if let Target::Block(block) = target {
        into.push(block.array)?;
    }
    match right {
        Right::One(operand) => operand_array(operand, into),
        Right::Two(left, _, right) => {
            operand_array(left, into)?;
            operand_array(right, into)
        }
    }
}

// Adds the array of an operand that is a block.
fn operand_array(operand: &Operand, into: &mut Vec<u16>) -> Result<(), AllocError>
    ensures { OnOk result (into.new.items ≡ into.old.items ++ block_arrays (spec.operand_block operand.now)) }
{
    if let Operand::Block(block) = operand {
        into.push(block.array)?;
    }
    Ok(())
}
