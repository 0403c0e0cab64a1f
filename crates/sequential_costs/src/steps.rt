//! How many steps a checker of the epoch rule takes at most.

ghost use Rattle.std.specs.Prelude.{◌≡◌, ◌≤◌, IfOk, length};
ghost use Rattle.sial_meaning.specs.Costs as spec;
ghost use Rattle.sip_setting.specs.Seen.{setting_of};

use crate::cutting::cuttings;
use crate::procedures::procedure_steps;
use crate::statements::body_steps;
use sip_files::OutOfMemory;
use sip_setting::Granted;
use std::alloc::Global;

/// The sum of the steps of all statements, each as often as its loops turn, both branches of an `if`, and procedures at each call of them.
/// A number above 2^62 is kept as 2^62 + 1.
pub fn sequential_steps(alloc: Global, granted: &Granted) -> Result<u64, OutOfMemory>
    requires { length (setting_of granted.now).program.indices ≤ 256 }
    ensures { IfOk result (λ steps. steps ≡ spec.sequential_steps (setting_of granted.now)) }
{
    let arrays = granted.program.arrays.as_slice();
    let body = granted.program.body.as_slice();
    let indices = granted.program.indices.as_slice();
    let cuttings = cuttings(alloc, &granted.spaces, indices)?;
    let calls = procedure_steps(alloc, granted, cuttings.as_slice())?;
    Ok(body_steps(
        &granted.spaces,
        arrays,
        cuttings.as_slice(),
        calls.as_slice(),
        body,
    ))
}
