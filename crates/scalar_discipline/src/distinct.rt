//! Calls, each procedure called once.

ghost use Rattle.std.specs.Prelude.{◌≡◌, ◌⊎◌, ℕ, List, Bool, true, false, length, slice_index_or, IfOk};
ghost use Rattle.scalar_discipline.specs.Calls.{lists};
ghost use Rattle.scalar_discipline.specs.Distinct.{LeadAlike};
ghost use Rattle.scalar_discipline.specs.Rounds.{leads_on};

use crate::call::Call;
use std::alloc::{AllocError, Global};

/// The calls of each procedure, without those of a procedure that was called before.
pub fn all_distinct(alloc: Global, calls: &[Vec<Call>]) -> Result<Vec<Vec<Call>>, AllocError>
    ensures { IfOk result (λ all. LeadAlike (lists all.items) (lists calls.now)) }
{
    let mut all = Vec::with_capacity(alloc, calls.len())?;
    for own in calls {
        all.push(distinct(alloc, calls.len(), own.as_slice())?)?;
    }
    Ok(all)
}

// Calls of so many procedures, without those of one that was called before.
fn distinct(alloc: Global, procedures: usize, own: &[Call]) -> Result<Vec<Call>, AllocError>
    ensures { IfOk result (λ few. (reach : List Bool) → leads_on reach few.items ≡ leads_on reach own.now) }
{
    let mut called = vec![in alloc; false; procedures]?;
    let mut few = Vec::new(alloc);
    for call in own {
        if !is_called(called.as_slice(), call.procedure) {
            few.push(*call)?;
            mark(called.as_mut_slice(), call.procedure);
        }
    }
    Ok(few)
}

// Whether a procedure was called.
fn is_called(called: &[bool], procedure: u16) -> bool
    ensures { result ≡ slice_index_or called.now procedure false }
{
    called.get(procedure as usize).copied().unwrap_or(false)
}

// Marks a procedure as called, if it is there.
#[tactic(auto, using(crate::proofs::DistinctLemmas::set_marks))]
fn mark(called: &mut [bool], procedure: u16)
    ensures { (p : ℕ) → slice_index_or called.new p false ≡ true → (p ≡ procedure) ⊎ (slice_index_or called.old p false ≡ true) }
{
    if (procedure as usize) < called.len() {
        called[procedure as usize] = true;
    }
}
