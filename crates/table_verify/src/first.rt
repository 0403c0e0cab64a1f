//! The first fault of tables.

ghost use Rattle.std.specs.Prelude.{◌≡◌, IfOk, None};
ghost use Rattle.table_verify.specs.FirstFaults as spec;
ghost use Rattle.table_verify.specs.Passing.{verified};

use crate::fault::{VerifyFault, earlier};
use crate::nesting::nesting_fault;
use crate::numbering::number_fault;
use crate::targets::target_fault;
use sip_files::OutOfMemory;
use sip_tables::Tables;
use std::alloc::Global;

/// The first fault of tables, if they have one.
#[tactic(auto, using(crate::proofs::FirstLemmas::finds))]
pub fn first_fault(alloc: Global, tables: &Tables) -> Result<Option<VerifyFault>, OutOfMemory>
    ensures { IfOk result (λ found. spec.Finds tables.now found) }
{
    let nest = nest(alloc, tables)?;
    let target = target(alloc, tables)?;
    let id = id(alloc, tables)?;
    Ok(earlier(earlier(nest, target), id))
}

/// The first fault of tables of which no program is read.
#[tactic(auto, using(crate::proofs::FirstLemmas::tells, crate::proofs::FirstLemmas::unread_has_fault))]
pub fn refusal(alloc: Global, tables: &Tables) -> VerifyFault
    requires unread { verified tables.now ≡ None }
    ensures { spec.Tells tables.now result }
{
    match first_fault(alloc, tables) {
        Ok(Some(fault)) => fault,
        Ok(None) => unreachable!(),
        Err(OutOfMemory) => VerifyFault::OutOfMemory,
    }
}

// The first fault of nesting.
#[tactic(auto, using(crate::proofs::FirstLemmas::nest_at, crate::proofs::FirstLemmas::nest_nowhere))]
fn nest(alloc: Global, tables: &Tables) -> Result<Option<VerifyFault>, OutOfMemory>
    ensures { IfOk result (λ found. spec.IsFirstOf (spec.OfNest tables.now) found) }
{
    match nesting_fault(alloc, tables)? {
        Some(at) => Ok(Some(VerifyFault::Nest {
            instruction: number(at)?,
        })),
        None => Ok(None),
    }
}

// The first instruction that leads elsewhere.
#[tactic(auto, using(crate::proofs::FirstLemmas::target_some, crate::proofs::FirstLemmas::target_none))]
fn target(alloc: Global, tables: &Tables) -> Result<Option<VerifyFault>, OutOfMemory>
    ensures { IfOk result (λ found. spec.IsFirstOf (spec.OfTarget tables.now) found) }
{
    match target_fault(alloc, tables)? {
        Some(at) => Ok(Some(VerifyFault::Target {
            instruction: number(at)?,
        })),
        None => Ok(None),
    }
}

// The first instruction that names what isn't there.
#[tactic(auto, using(crate::proofs::FirstLemmas::id_some, crate::proofs::FirstLemmas::id_none))]
fn id(alloc: Global, tables: &Tables) -> Result<Option<VerifyFault>, OutOfMemory>
    ensures { IfOk result (λ found. spec.IsFirstOf (spec.OfId tables.now) found) }
{
    match number_fault(alloc, tables)? {
        Some(at) => Ok(Some(VerifyFault::Id {
            instruction: number(at)?,
        })),
        None => Ok(None),
    }
}

// The number of an instruction, in 32 bits.
fn number(at: usize) -> Result<u32, OutOfMemory>
    ensures { IfOk result (λ n. n ≡ at) }
{
    match u32::try_from(at) {
        Ok(number) => Ok(number),
        Err(_) => Err(OutOfMemory),
    }
}
