//! The steps of procedures.

ghost use Rattle.std.specs.Prelude.{◌≡◌, IfOk, map, slice_index_or};
ghost use Rattle.sial_meaning.specs.Costs as spec;
ghost use Rattle.sial_meaning.specs.Meaning.{call_depth};
ghost use Rattle.sip_setting.specs.Seen.{setting_of};
ghost use Rattle.sequential_costs.specs.Cuttings.{AreCuttings};
ghost use Rattle.sequential_costs.specs.Called.{costs_after, with_calls};

use crate::cutting::Cutting;
use crate::statements::body_steps;
use sip_setting::Granted;
use std::alloc::{AllocError, Global};

// Calls within each other.
const MOST_DEPTH: u32 = 16;

/// The steps of each procedure: of those that call none, then of those that call these, and so on.
pub fn procedure_steps(
    alloc: Global,
    granted: &Granted,
    cuttings: &[Cutting],
) -> Result<Vec<u64>, AllocError>
    requires { AreCuttings granted.now.spaces.spaces cuttings.now }
    ensures { IfOk result (λ steps. steps.items ≡ costs_after (setting_of granted.now) call_depth) }
{
    let mut steps = vec![in alloc; 0u64; granted.program.procs.len()]?;
    for turn in 0..MOST_DEPTH {
        steps = one_call_more(alloc, granted, cuttings, steps.as_slice())?;
    }
    Ok(steps)
}

// The steps of each procedure, where those that it calls have these.
fn one_call_more(
    alloc: Global,
    granted: &Granted,
    cuttings: &[Cutting],
    calls: &[u64],
) -> Result<Vec<u64>, AllocError>
    requires { AreCuttings granted.now.spaces.spaces cuttings.now }
    ensures { IfOk result (λ steps. steps.items ≡ with_calls (setting_of granted.now) calls.now) }
{
    let mut steps = Vec::with_capacity(alloc, granted.program.procs.len())?;
    for procedure in granted.program.procs.as_slice() {
        let body = procedure.body.as_slice();
        steps.push(body_steps(
            &granted.spaces,
            granted.program.arrays.as_slice(),
            cuttings,
            calls,
            body,
        ))?;
    }
    Ok(steps)
}
