//! How deep the procedures of a program call.

ghost use Rattle.std.specs.Prelude.{◌≡◌, ◌≤◌, IfErr, IfOk, None, OnOk, length};
ghost use Rattle.sial_syntax.specs.SideRules.{recursion};
ghost use Rattle.sial_syntax.specs.Tree.{tree};
ghost use Rattle.scalar_discipline.specs.Discipline.{IsCause, depths_of};

use crate::call::calls;
use crate::fault::RuleFault;
use crate::reaching::first_back;
use crate::rounds::settle;
use sial_syntax::Program;
use std::alloc::Global;

/// How deep each procedure calls, itself counted; a call that leads back to its procedure is refused, the first by line.
pub fn call_depths(alloc: Global, program: &Program) -> Result<Vec<u32>, RuleFault>
    requires few { length (tree program.now).procedures ≤ 65535 }
    ensures depths { IfOk result (λ depths. depths.items ≡ depths_of (tree program.now)) }
    ensures granted { OnOk result (recursion (tree program.now) ≡ None) }
    ensures fault { IfErr result (IsCause (tree program.now)) }
{
    let calls = calls(alloc, program.procs.as_slice())?;
    let found = settle(alloc, calls.as_slice())?;
    if found.settled {
        return Ok(found.depths);
    }
    match first_back(alloc, calls.as_slice())? {
        Some(line) => Err(RuleFault::Recursion { line }),
        None => Ok(found.depths),
    }
}
