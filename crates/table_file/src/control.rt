//! Instructions of loops, branches, pardos and procedures, read field by field.

ghost use Rattle.std.specs.Prelude.{◌≡◌};
ghost use Rattle.table_file.specs.Fields.{Gives};
ghost use Rattle.table_file.specs.Control as spec;

use crate::combined::{bare, compared, jump};
use crate::fault::TableFault;
use crate::fields::unused;
use crate::heads::{jump_head, line_alone, line_and_jump, test_mode};
use crate::operands::{no_operand, pardo_indices, thing};
use sip_tables::{Indices, Instruction, Operation};
use std::alloc::Global;

/// An operation with no operand and no jump.
#[tactic(auto, unfolding(crate::specs::Control::ending))]
pub fn ending(
    operation: Operation,
    bytes: &[u8],
    at: usize,
) -> Result<(Instruction, usize), TableFault>
    ensures { Gives (λ x. x) result (spec.ending operation bytes.now at) }
{
    let (line, next) = bare(bytes, at)?;
    Ok((Instruction { line, operation }, next))
}

/// The head of a loop over segments.
#[tactic(auto, unfolding(crate::specs::Control::loop_head))]
pub fn loop_head(bytes: &[u8], at: usize) -> Result<(Instruction, usize), TableFault>
    ensures { Gives (λ x. x) result (spec.loop_head bytes.now at) }
{
    let ((line, past), next) = jump_head(bytes, at)?;
    let (index, next) = thing(4, bytes, next)?;
    let next = unused(32, bytes, next)?;
    let operation = Operation::Do { index, past };
    Ok((Instruction { line, operation }, next))
}

/// The head of a loop over pieces.
#[tactic(auto, unfolding(crate::specs::Control::pieces_head))]
pub fn pieces_head(bytes: &[u8], at: usize) -> Result<(Instruction, usize), TableFault>
    ensures { Gives (λ x. x) result (spec.pieces_head bytes.now at) }
{
    let ((line, past), next) = jump_head(bytes, at)?;
    let (sub, next) = thing(4, bytes, next)?;
    let (index, next) = thing(4, bytes, next)?;
    let next = no_operand(bytes, next)?;
    let operation = Operation::DoIn { sub, index, past };
    Ok((Instruction { line, operation }, next))
}

/// A test.
#[tactic(auto, unfolding(crate::specs::Control::branch))]
pub fn branch(bytes: &[u8], at: usize) -> Result<(Instruction, usize), TableFault>
    ensures { Gives (λ x. x) result (spec.branch bytes.now at) }
{
    let (test, next) = test_mode(bytes, at)?;
    let ((line, otherwise), next) = line_and_jump(bytes, next)?;
    let (cond, next) = compared(test, bytes, next)?;
    let operation = Operation::If { cond, otherwise };
    Ok((Instruction { line, operation }, next))
}

/// The head of a pardo.
#[tactic(auto, unfolding(crate::specs::Control::pardo_head))]
pub fn pardo_head(
    alloc: Global,
    bytes: &[u8],
    at: usize,
) -> Result<(Instruction, usize), TableFault>
    ensures { Gives (λ x. x) result (spec.pardo_head bytes.now at) }
{
    let ((line, end), next) = jump_head(bytes, at)?;
    let (indices, next) = pardo_indices(alloc, bytes, next)?;
    let next = no_operand(bytes, next)?;
    let indices = Indices::from_vec(indices);
    let operation = Operation::Pardo { indices, end };
    Ok((Instruction { line, operation }, next))
}

/// A `where` line.
#[tactic(auto, unfolding(crate::specs::Control::where_line))]
pub fn where_line(bytes: &[u8], at: usize) -> Result<(Instruction, usize), TableFault>
    ensures { Gives (λ x. x) result (spec.where_line bytes.now at) }
{
    let (test, next) = test_mode(bytes, at)?;
    let (line, next) = line_alone(bytes, next)?;
    let (cond, next) = compared(test, bytes, next)?;
    let operation = Operation::Where { cond };
    Ok((Instruction { line, operation }, next))
}

/// A call.
#[tactic(auto, unfolding(crate::specs::Control::call))]
pub fn call(bytes: &[u8], at: usize) -> Result<(Instruction, usize), TableFault>
    ensures { Gives (λ x. x) result (spec.call bytes.now at) }
{
    let ((line, entry), next) = jump_head(bytes, at)?;
    let (procedure, next) = thing(6, bytes, next)?;
    let next = unused(32, bytes, next)?;
    let operation = Operation::Call { procedure, entry };
    Ok((Instruction { line, operation }, next))
}

/// The end of a loop.
#[tactic(auto, unfolding(crate::specs::Control::end_do))]
pub fn end_do(bytes: &[u8], at: usize) -> Result<(Instruction, usize), TableFault>
    ensures { Gives (λ x. x) result (spec.end_do bytes.now at) }
{
    let ((line, head), next) = jump(bytes, at)?;
    let operation = Operation::EndDo { head };
    Ok((Instruction { line, operation }, next))
}

/// The end of the branch that was taken.
#[tactic(auto, unfolding(crate::specs::Control::past_else))]
pub fn past_else(bytes: &[u8], at: usize) -> Result<(Instruction, usize), TableFault>
    ensures { Gives (λ x. x) result (spec.past_else bytes.now at) }
{
    let ((line, past), next) = jump(bytes, at)?;
    let operation = Operation::Else { past };
    Ok((Instruction { line, operation }, next))
}

/// The end of a pardo.
#[tactic(auto, unfolding(crate::specs::Control::end_pardo))]
pub fn end_pardo(bytes: &[u8], at: usize) -> Result<(Instruction, usize), TableFault>
    ensures { Gives (λ x. x) result (spec.end_pardo bytes.now at) }
{
    let ((line, head), next) = jump(bytes, at)?;
    let operation = Operation::EndPardo { head };
    Ok((Instruction { line, operation }, next))
}
