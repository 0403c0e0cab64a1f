//! Operands of instructions, read field by field.

ghost use Rattle.std.specs.Prelude.{◌≡◌, map};
ghost use Rattle.table_file.specs.Fields.{Gives};
ghost use Rattle.table_file.specs.Operands as spec;

use crate::fault::TableFault;
use crate::fields::{byte, exactly, field, number_2, number_8, printed, rank, tuple, unused};
use sial_syntax::{BlockRef, Operand, Slot, Target, Text, Tuple, Value};
use sip_tables::Slots;
use std::alloc::Global;

/// No operand.
pub fn no_operand(bytes: &[u8], at: usize) -> Result<usize, TableFault>
    ensures { Gives (λ x. x) result (spec.no_operand bytes.now at) }
{
    unused(16, bytes, at)
}

// The rest of a number.
#[tactic(auto, unfolding(crate::specs::Operands::number_rest))]
fn number_rest(bytes: &[u8], at: usize) -> Result<(u64, usize), TableFault>
    ensures { Gives (λ x. x) result (spec.number_rest bytes.now at) }
{
    let front = unused(3, bytes, at)?;
    let (number, next) = number_8(bytes, front)?;
    let next = unused(4, bytes, next)?;
    Ok((number, next))
}

// The rest of a thing by its number.
#[tactic(auto, unfolding(crate::specs::Operands::thing_rest))]
fn thing_rest(bytes: &[u8], at: usize) -> Result<(u16, usize), TableFault>
    ensures { Gives (λ x. x) result (spec.thing_rest bytes.now at) }
{
    let front = unused(1, bytes, at)?;
    let (number, next) = number_2(bytes, front)?;
    let next = unused(12, bytes, next)?;
    Ok((number, next))
}

// The rest of a block.
#[tactic(auto, unfolding(crate::specs::Operands::block_rest))]
fn block_rest(alloc: Global, bytes: &[u8], at: usize) -> Result<(BlockRef, usize), TableFault>
    ensures { Gives (λ x. x) result (spec.block_rest bytes.now at) }
{
    let (rank, next) = rank(bytes, at)?;
    let (array, next) = number_2(bytes, next)?;
    let (indices, next) = tuple(alloc, rank, bytes, next)?;
    let at = Tuple::from_slice(alloc, indices.as_slice())?;
    Ok((BlockRef { array, at }, next))
}

/// A thing by its number, under this tag.
#[tactic(auto, unfolding(crate::specs::Operands::thing))]
pub fn thing(tag: u8, bytes: &[u8], at: usize) -> Result<(u16, usize), TableFault>
    ensures { Gives (λ x. x) result (spec.thing tag bytes.now at) }
{
    let front = exactly(tag, bytes, at)?;
    thing_rest(bytes, front)
}

/// A block.
#[tactic(auto, unfolding(crate::specs::Operands::block))]
pub fn block(alloc: Global, bytes: &[u8], at: usize) -> Result<(BlockRef, usize), TableFault>
    ensures { Gives (λ x. x) result (spec.block bytes.now at) }
{
    let front = exactly(3, bytes, at)?;
    block_rest(alloc, bytes, front)
}

// A place of a tuple as a slot.
fn slot_of(number: u16) -> Slot
    ensures { result ≡ spec.slot_of number }
{
    if number == 65534 {
        return Slot::All;
    }
    Slot::At(number)
}

// The places of a tuple as slots.
fn slots_of(alloc: Global, numbers: &[u16]) -> Result<Slots, TableFault>
    ensures { Gives (λ x. x) result (Ok (map spec.slot_of numbers.now)) }
{
    let mut slots = Vec::new(alloc);
    for number in numbers {
        slots.push(slot_of(*number))?;
    }
    Ok(Slots::from_vec(slots))
}

/// An array with a slot for each dimension.
#[tactic(auto, unfolding(crate::specs::Operands::slots))]
pub fn slots(alloc: Global, bytes: &[u8], at: usize) -> Result<((u16, Slots), usize), TableFault>
    ensures { Gives (λ x. x) result (spec.slots bytes.now at) }
{
    let (block, next) = block(alloc, bytes, at)?;
    let slots = slots_of(alloc, block.at.as_slice())?;
    Ok(((block.array, slots), next))
}

// Some indices.
#[tactic(auto, unfolding(crate::specs::Operands::index_list))]
fn index_list(alloc: Global, bytes: &[u8], at: usize) -> Result<(Vec<u16>, usize), TableFault>
    ensures { Gives (λ x. (x.0.items, x.1)) result (spec.index_list bytes.now at) }
{
    let front = exactly(7, bytes, at)?;
    let (rank, next) = rank(bytes, front)?;
    let next = unused(2, bytes, next)?;
    tuple(alloc, rank, bytes, next)
}

/// A printed text by its number.
#[tactic(auto, unfolding(crate::specs::Operands::text_operand))]
pub fn text_operand(texts: &[Text], bytes: &[u8], at: usize) -> Result<(u32, usize), TableFault>
    ensures { Gives (λ x. x) result (spec.text_operand texts.now bytes.now at) }
{
    let front = exactly(5, bytes, at)?;
    let middle = unused(3, bytes, front)?;
    let (number, next) = printed(texts, bytes, middle)?;
    let next = unused(8, bytes, next)?;
    Ok((number, next))
}

/// What an assignment writes.
#[tactic(auto, unfolding(crate::specs::Operands::target_operand))]
pub fn target_operand(alloc: Global, bytes: &[u8], at: usize) -> Result<(Target, usize), TableFault>
    ensures { Gives (λ x. x) result (spec.target_operand bytes.now at) }
{
    let (tag, next) = byte(bytes, at)?;
    if tag == 2 {
        let (scalar, next) = thing_rest(bytes, next)?;
        return Ok((Target::Scalar(scalar), next));
    }
    if tag == 3 {
        let (block, next) = block_rest(alloc, bytes, next)?;
        return Ok((Target::Block(block), next));
    }
    Err(field(at))
}

/// An operand of a right side.
#[tactic(auto, unfolding(crate::specs::Operands::right_operand))]
pub fn right_operand(alloc: Global, bytes: &[u8], at: usize) -> Result<(Operand, usize), TableFault>
    ensures { Gives (λ x. x) result (spec.right_operand bytes.now at) }
{
    let (tag, next) = byte(bytes, at)?;
    if tag == 1 {
        let (number, next) = number_rest(bytes, next)?;
        return Ok((Operand::Number(number), next));
    }
    if tag == 2 {
        let (scalar, next) = thing_rest(bytes, next)?;
        return Ok((Operand::Scalar(scalar), next));
    }
    if tag == 3 {
        let (block, next) = block_rest(alloc, bytes, next)?;
        return Ok((Operand::Block(block), next));
    }
    Err(field(at))
}

/// A value of a condition.
#[tactic(auto, unfolding(crate::specs::Operands::value_operand))]
pub fn value_operand(bytes: &[u8], at: usize) -> Result<(Value, usize), TableFault>
    ensures { Gives (λ x. x) result (spec.value_operand bytes.now at) }
{
    let (tag, next) = byte(bytes, at)?;
    if tag == 1 {
        let (number, next) = number_rest(bytes, next)?;
        return Ok((Value::Number(number), next));
    }
    if tag == 2 {
        let (scalar, next) = thing_rest(bytes, next)?;
        return Ok((Value::Scalar(scalar), next));
    }
    if tag == 4 {
        let (index, next) = thing_rest(bytes, next)?;
        return Ok((Value::Index(index), next));
    }
    Err(field(at))
}

// The other indices of a pardo, behind six first ones.
#[tactic(auto, unfolding(crate::specs::Operands::other_operand))]
fn other_operand(
    alloc: Global,
    first: Vec<u16>,
    bytes: &[u8],
    at: usize,
) -> Result<(Vec<u16>, usize), TableFault>
    ensures { Gives (λ x. (x.0.items, x.1)) result (spec.other_operand first.items bytes.now at) }
{
    let (tag, next) = byte(bytes, at)?;
    if tag == 0 {
        let next = unused(15, bytes, next)?;
        return Ok((first, next));
    }
    let (others, next) = index_list(alloc, bytes, at)?;
    let mut all = first;
    all.extend_from_slice(others.as_slice())?;
    Ok((all, next))
}

/// The indices of a pardo: the first six, and then the others.
#[tactic(auto, unfolding(crate::specs::Operands::pardo_indices))]
pub fn pardo_indices(
    alloc: Global,
    bytes: &[u8],
    at: usize,
) -> Result<(Vec<u16>, usize), TableFault>
    ensures { Gives (λ x. (x.0.items, x.1)) result (spec.pardo_indices bytes.now at) }
{
    let (first, next) = index_list(alloc, bytes, at)?;
    if first.len() == 6 {
        return other_operand(alloc, first, bytes, next);
    }
    let next = no_operand(bytes, next)?;
    Ok((first, next))
}
