//! How deep procedures call, round after round until nothing changes.

ghost use Rattle.std.specs.Prelude.{◌≡◌, ◌+◌, ◌≤◌, IfOk, IsTrue, length, nat_le, slice_index_or, true};
ghost use Rattle.std.specs.List.{list_all};
ghost use Rattle.scalar_discipline.specs.Calls.{lists};
ghost use Rattle.scalar_discipline.specs.Rounds as spec;

use crate::call::Call;
use std::alloc::{AllocError, Global};

/// The depths of procedures after as many rounds as there are procedures, and whether a round left them as they were.
#[derive(Drop)]
pub struct Settling {
    pub depths: Vec<u32>,
    pub settled: bool,
}

/// Looks one call further in each round.
pub fn settle(alloc: Global, calls: &[Vec<Call>]) -> Result<Settling, AllocError>
    requires few { length calls.now ≤ 65535 }
    ensures depths { IfOk result (λ s. s.depths.items ≡ spec.depths_after (lists calls.now) (length calls.now)) }
    ensures settled { IfOk result (λ s. s.settled ≡ true → spec.deeper (lists calls.now) s.depths.items ≡ s.depths.items) }
{
    let mut depths = vec![in alloc; 1u32; calls.len()]?;
    for turn in 0..calls.len() {
        let next = deeper(alloc, calls, depths.as_slice())?;
        if same(next.as_slice(), depths.as_slice()) {
            return Ok(Settling {
                depths,
                settled: true,
            });
        }
        depths = next;
    }
    Ok(Settling {
        depths,
        settled: false,
    })
}

// The depths with one call more.
fn deeper(alloc: Global, calls: &[Vec<Call>], depths: &[u32]) -> Result<Vec<u32>, AllocError>
    requires low { IsTrue (list_all (λ depth. nat_le depth 65536) depths.now) }
    ensures { IfOk result (λ next. next.items ≡ spec.deeper (lists calls.now) depths.now) }
{
    let mut next = Vec::with_capacity(alloc, calls.len())?;
    for own in calls {
        next.push(1 + deepest(depths, own.as_slice()))?;
    }
    Ok(next)
}

// The greatest depth that some calls lead to.
fn deepest(depths: &[u32], calls: &[Call]) -> u32
    ensures { result ≡ spec.deepest depths.now calls.now }
{
    let mut most = 0u32;
    for call in calls {
        most = most.max(depth_at(depths, call.procedure));
    }
    most
}

// The depth of a procedure.
fn depth_at(depths: &[u32], procedure: u16) -> u32
    ensures { result ≡ slice_index_or depths.now procedure 1 }
{
    depths.get(procedure as usize).copied().unwrap_or(1)
}

// Whether two lists are the same.
fn same(depths: &[u32], other: &[u32]) -> bool
    ensures { IsTrue result → depths.now ≡ other.now }
{
    depths == other
}
