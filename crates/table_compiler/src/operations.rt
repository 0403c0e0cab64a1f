//! Operations of statements that are one instruction.

ghost use Rattle.std.specs.Prelude.{◌≡◌, IfOk, slice_index};

use crate::copies;
use sial_syntax::{Access, BlockRef, Op, Right, Slot, Target};
use sip_files::OutOfMemory;
use sip_tables::{Operation, Slots};
use std::alloc::Global;

/// A call, with the procedure's first instruction.
pub fn call(entries: &[u32], procedure: u16) -> Operation
    ensures { result ≡ Operation.Call procedure (slice_index entries.now procedure) }
{
    let entry = entries.get(procedure as usize).copied().unwrap_or(0);
    Operation::Call { procedure, entry }
}

/// An assignment.
pub fn assign(
    alloc: Global,
    target: &Target,
    op: Op,
    right: &Right,
) -> Result<Operation, OutOfMemory>
    ensures { IfOk result (λ o. o ≡ Operation.Assign target.now op right.now) }
{
    let target = copies::target(alloc, target)?;
    let right = copies::right(alloc, right)?;
    Ok(Operation::Assign { target, op, right })
}

/// A block that is got.
pub fn get(alloc: Global, block: &BlockRef) -> Result<Operation, OutOfMemory>
    ensures { IfOk result (λ o. o ≡ Operation.Get block.now) }
{
    let block = copies::block(alloc, block)?;
    Ok(Operation::Get { block })
}

/// A block that is requested.
pub fn request(alloc: Global, block: &BlockRef) -> Result<Operation, OutOfMemory>
    ensures { IfOk result (λ o. o ≡ Operation.Request block.now) }
{
    let block = copies::block(alloc, block)?;
    Ok(Operation::Request { block })
}

/// A block whose integrals are computed.
pub fn integrals(alloc: Global, block: &BlockRef) -> Result<Operation, OutOfMemory>
    ensures { IfOk result (λ o. o ≡ Operation.Integrals block.now) }
{
    let block = copies::block(alloc, block)?;
    Ok(Operation::Integrals { block })
}

/// A block that is put into a distributed one.
pub fn put(
    alloc: Global,
    block: &BlockRef,
    how: Access,
    from: &BlockRef,
) -> Result<Operation, OutOfMemory>
    ensures { IfOk result (λ o. o ≡ Operation.Put block.now how from.now) }
{
    let block = copies::block(alloc, block)?;
    let from = copies::block(alloc, from)?;
    Ok(Operation::Put { block, how, from })
}

/// A block that is put into a served one.
pub fn prepare(
    alloc: Global,
    block: &BlockRef,
    how: Access,
    from: &BlockRef,
) -> Result<Operation, OutOfMemory>
    ensures { IfOk result (λ o. o ≡ Operation.Prepare block.now how from.now) }
{
    let block = copies::block(alloc, block)?;
    let from = copies::block(alloc, from)?;
    Ok(Operation::Prepare { block, how, from })
}

/// Blocks that are allocated.
pub fn allocate(alloc: Global, array: u16, at: &[Slot]) -> Result<Operation, OutOfMemory>
    ensures { IfOk result (λ o. o ≡ Operation.Allocate array at.now) }
{
    let at = Slots::from_slice(alloc, at)?;
    Ok(Operation::Allocate { array, at })
}

/// Blocks that are deallocated.
pub fn deallocate(alloc: Global, array: u16, at: &[Slot]) -> Result<Operation, OutOfMemory>
    ensures { IfOk result (λ o. o ≡ Operation.Deallocate array at.now) }
{
    let at = Slots::from_slice(alloc, at)?;
    Ok(Operation::Deallocate { array, at })
}
