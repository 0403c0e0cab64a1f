//! Statements that are one instruction, read field by field.

ghost use Rattle.std.specs.Prelude.{◌≡◌};
ghost use Rattle.table_file.specs.Fields.{Gives};
ghost use Rattle.table_file.specs.Simple as spec;

use crate::combined::{Putting, Slotted, array_slots, one_block, one_thing, put_blocks};
use crate::fault::TableFault;
use crate::fields::unused;
use crate::heads::{assign_mode, line_alone, plain_head};
use crate::operands::{
    block, no_operand, right_operand, slots, target_operand, text_operand, thing,
};
use sial_syntax::{Bin, Operand, Right, Text};
use sip_tables::{Instruction, Operation};
use std::alloc::Global;

/// A right side whose first operand was read.
#[tactic(auto, unfolding(crate::specs::Simple::right_side))]
pub fn right_side(
    alloc: Global,
    first: Operand,
    bin: Option<Bin>,
    bytes: &[u8],
    at: usize,
) -> Result<(Right, usize), TableFault>
    ensures { Gives (λ x. x) result (spec.right_side first bin bytes.now at) }
{
    match bin {
        None => {
            let next = no_operand(bytes, at)?;
            Ok((Right::One(first), next))
        }
        Some(bin) => {
            let (second, next) = right_operand(alloc, bytes, at)?;
            Ok((Right::Two(first, bin, second), next))
        }
    }
}

/// An assignment.
#[tactic(auto, unfolding(crate::specs::Simple::assignment))]
pub fn assignment(
    alloc: Global,
    bytes: &[u8],
    at: usize,
) -> Result<(Instruction, usize), TableFault>
    ensures { Gives (λ x. x) result (spec.assignment bytes.now at) }
{
    let ((op, bin), next) = assign_mode(bytes, at)?;
    let (line, next) = line_alone(bytes, next)?;
    let (target, next) = target_operand(alloc, bytes, next)?;
    let (first, next) = right_operand(alloc, bytes, next)?;
    let (right, next) = right_side(alloc, first, bin, bytes, next)?;
    let operation = Operation::Assign { target, op, right };
    Ok((Instruction { line, operation }, next))
}

/// Two scalars.
#[tactic(auto, unfolding(crate::specs::Simple::collection))]
pub fn collection(bytes: &[u8], at: usize) -> Result<(Instruction, usize), TableFault>
    ensures { Gives (λ x. x) result (spec.collection bytes.now at) }
{
    let (line, next) = plain_head(bytes, at)?;
    let (into, next) = thing(2, bytes, next)?;
    let (from, next) = thing(2, bytes, next)?;
    let next = no_operand(bytes, next)?;
    let operation = Operation::Collective { into, from };
    Ok((Instruction { line, operation }, next))
}

/// A printed text.
#[tactic(auto, unfolding(crate::specs::Simple::print))]
pub fn print(texts: &[Text], bytes: &[u8], at: usize) -> Result<(Instruction, usize), TableFault>
    ensures { Gives (λ x. x) result (spec.print texts.now bytes.now at) }
{
    let (line, next) = plain_head(bytes, at)?;
    let (text, next) = text_operand(texts, bytes, next)?;
    let next = unused(32, bytes, next)?;
    let operation = Operation::Print { text };
    Ok((Instruction { line, operation }, next))
}

/// A block that is got.
#[tactic(auto, unfolding(crate::specs::Simple::get))]
pub fn get(alloc: Global, bytes: &[u8], at: usize) -> Result<(Instruction, usize), TableFault>
    ensures { Gives (λ x. x) result (spec.get bytes.now at) }
{
    let ((line, block), next) = one_block(alloc, bytes, at)?;
    let operation = Operation::Get { block };
    Ok((Instruction { line, operation }, next))
}

/// A block that is requested.
#[tactic(auto, unfolding(crate::specs::Simple::request))]
pub fn request(alloc: Global, bytes: &[u8], at: usize) -> Result<(Instruction, usize), TableFault>
    ensures { Gives (λ x. x) result (spec.request bytes.now at) }
{
    let ((line, block), next) = one_block(alloc, bytes, at)?;
    let operation = Operation::Request { block };
    Ok((Instruction { line, operation }, next))
}

/// A block whose integrals are computed.
#[tactic(auto, unfolding(crate::specs::Simple::integrals))]
pub fn integrals(alloc: Global, bytes: &[u8], at: usize) -> Result<(Instruction, usize), TableFault>
    ensures { Gives (λ x. x) result (spec.integrals bytes.now at) }
{
    let ((line, block), next) = one_block(alloc, bytes, at)?;
    let operation = Operation::Integrals { block };
    Ok((Instruction { line, operation }, next))
}

/// An array that is created.
#[tactic(auto, unfolding(crate::specs::Simple::create))]
pub fn create(bytes: &[u8], at: usize) -> Result<(Instruction, usize), TableFault>
    ensures { Gives (λ x. x) result (spec.create bytes.now at) }
{
    let ((line, array), next) = one_thing(8, bytes, at)?;
    let operation = Operation::Create { array };
    Ok((Instruction { line, operation }, next))
}

/// An array that is deleted.
#[tactic(auto, unfolding(crate::specs::Simple::delete))]
pub fn delete(bytes: &[u8], at: usize) -> Result<(Instruction, usize), TableFault>
    ensures { Gives (λ x. x) result (spec.delete bytes.now at) }
{
    let ((line, array), next) = one_thing(8, bytes, at)?;
    let operation = Operation::Delete { array };
    Ok((Instruction { line, operation }, next))
}

/// A scalar that is printed.
#[tactic(auto, unfolding(crate::specs::Simple::print_scalar))]
pub fn print_scalar(bytes: &[u8], at: usize) -> Result<(Instruction, usize), TableFault>
    ensures { Gives (λ x. x) result (spec.print_scalar bytes.now at) }
{
    let ((line, scalar), next) = one_thing(2, bytes, at)?;
    let operation = Operation::PrintScalar { scalar };
    Ok((Instruction { line, operation }, next))
}

/// A block that is put into a distributed one.
#[tactic(auto, unfolding(crate::specs::Simple::put))]
pub fn put(
    alloc: Global,
    version: u16,
    bytes: &[u8],
    at: usize,
) -> Result<(Instruction, usize), TableFault>
    ensures { Gives (λ x. x) result (spec.put version bytes.now at) }
{
    let (putting, next) = put_blocks(alloc, version, bytes, at)?;
    let Putting {
        line,
        block,
        how,
        from,
    } = putting;
    let operation = Operation::Put { block, how, from };
    Ok((Instruction { line, operation }, next))
}

/// A block that is put into a served one.
#[tactic(auto, unfolding(crate::specs::Simple::prepare))]
pub fn prepare(
    alloc: Global,
    version: u16,
    bytes: &[u8],
    at: usize,
) -> Result<(Instruction, usize), TableFault>
    ensures { Gives (λ x. x) result (spec.prepare version bytes.now at) }
{
    let (putting, next) = put_blocks(alloc, version, bytes, at)?;
    let Putting {
        line,
        block,
        how,
        from,
    } = putting;
    let operation = Operation::Prepare { block, how, from };
    Ok((Instruction { line, operation }, next))
}

/// Blocks that are allocated.
#[tactic(auto, unfolding(crate::specs::Simple::allocate))]
pub fn allocate(alloc: Global, bytes: &[u8], at: usize) -> Result<(Instruction, usize), TableFault>
    ensures { Gives (λ x. x) result (spec.allocate bytes.now at) }
{
    let (slotted, next) = array_slots(alloc, bytes, at)?;
    let Slotted { line, array, slots } = slotted;
    let operation = Operation::Allocate { array, at: slots };
    Ok((Instruction { line, operation }, next))
}

/// Blocks that are deallocated.
#[tactic(auto, unfolding(crate::specs::Simple::deallocate))]
pub fn deallocate(
    alloc: Global,
    bytes: &[u8],
    at: usize,
) -> Result<(Instruction, usize), TableFault>
    ensures { Gives (λ x. x) result (spec.deallocate bytes.now at) }
{
    let (slotted, next) = array_slots(alloc, bytes, at)?;
    let Slotted { line, array, slots } = slotted;
    let operation = Operation::Deallocate { array, at: slots };
    Ok((Instruction { line, operation }, next))
}
