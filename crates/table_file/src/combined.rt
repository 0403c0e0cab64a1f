//! What some instructions have in common behind their operation.

ghost use Rattle.std.specs.Prelude.{◌≡◌};
ghost use Rattle.table_file.specs.Fields.{Gives};
ghost use Rattle.table_file.specs.Combined as spec;

use crate::fault::TableFault;
use crate::fields::unused;
use crate::heads::{jump_head, line_alone, plain_head, put_mode};
use crate::operands::{block, no_operand, slots, thing, value_operand};
use sial_syntax::{Access, BlockRef, Cond, Test};
use sip_tables::Slots;
use std::alloc::Global;

/// A block that is put into another, and how.
#[derive(Drop)]
pub struct Putting {
    pub line: u32,
    pub block: BlockRef,
    pub how: Access,
    pub from: BlockRef,
}

/// An array with a slot for each dimension.
#[derive(Drop)]
pub struct Slotted {
    pub line: u32,
    pub array: u16,
    pub slots: Slots,
}

/// No operand, no jump: the line.
#[tactic(auto, unfolding(crate::specs::Combined::bare))]
pub fn bare(bytes: &[u8], at: usize) -> Result<(u32, usize), TableFault>
    ensures { Gives (λ x. x) result (spec.bare bytes.now at) }
{
    let (line, next) = plain_head(bytes, at)?;
    let next = unused(48, bytes, next)?;
    Ok((line, next))
}

/// A jump and no operand: the line and the jump.
#[tactic(auto, unfolding(crate::specs::Combined::jump))]
pub fn jump(bytes: &[u8], at: usize) -> Result<((u32, u32), usize), TableFault>
    ensures { Gives (λ x. x) result (spec.jump bytes.now at) }
{
    let (head, next) = jump_head(bytes, at)?;
    let next = unused(48, bytes, next)?;
    Ok((head, next))
}

/// One thing under this tag: the line and the thing.
#[tactic(auto, unfolding(crate::specs::Combined::one_thing))]
pub fn one_thing(tag: u8, bytes: &[u8], at: usize) -> Result<((u32, u16), usize), TableFault>
    ensures { Gives (λ x. x) result (spec.one_thing tag bytes.now at) }
{
    let (line, next) = plain_head(bytes, at)?;
    let (thing, next) = thing(tag, bytes, next)?;
    let next = unused(32, bytes, next)?;
    Ok(((line, thing), next))
}

/// A block: the line and the block.
#[tactic(auto, unfolding(crate::specs::Combined::one_block))]
pub fn one_block(
    alloc: Global,
    bytes: &[u8],
    at: usize,
) -> Result<((u32, BlockRef), usize), TableFault>
    ensures { Gives (λ x. x) result (spec.one_block bytes.now at) }
{
    let (line, next) = plain_head(bytes, at)?;
    let (block, next) = block(alloc, bytes, next)?;
    let next = unused(32, bytes, next)?;
    Ok(((line, block), next))
}

/// The slots of an array.
#[tactic(auto, unfolding(crate::specs::Combined::array_slots))]
pub fn array_slots(alloc: Global, bytes: &[u8], at: usize) -> Result<(Slotted, usize), TableFault>
    ensures { Gives (λ x. x) result (spec.array_slots bytes.now at) }
{
    let (line, next) = plain_head(bytes, at)?;
    let ((array, slots), next) = slots(alloc, bytes, next)?;
    let next = unused(32, bytes, next)?;
    Ok((Slotted { line, array, slots }, next))
}

/// A block that is put into another.
#[tactic(auto, unfolding(crate::specs::Combined::put_blocks))]
pub fn put_blocks(
    alloc: Global,
    version: u16,
    bytes: &[u8],
    at: usize,
) -> Result<(Putting, usize), TableFault>
    ensures { Gives (λ x. x) result (spec.put_blocks version bytes.now at) }
{
    let (how, next) = put_mode(version, bytes, at)?;
    let (line, next) = line_alone(bytes, next)?;
    let (to, next) = block(alloc, bytes, next)?;
    let (from, next) = block(alloc, bytes, next)?;
    let next = no_operand(bytes, next)?;
    let putting = Putting {
        line,
        block: to,
        how,
        from,
    };
    Ok((putting, next))
}

/// The two values of a test, and no third operand.
#[tactic(auto, unfolding(crate::specs::Combined::compared))]
pub fn compared(test: Test, bytes: &[u8], at: usize) -> Result<(Cond, usize), TableFault>
    ensures { Gives (λ x. x) result (spec.compared test bytes.now at) }
{
    let (left, next) = value_operand(bytes, at)?;
    let (right, next) = value_operand(bytes, next)?;
    let next = no_operand(bytes, next)?;
    Ok((Cond { left, test, right }, next))
}
