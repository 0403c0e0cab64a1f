//! Where the jumps of code are wrong.

ghost use Rattle.std.specs.Prelude.{◌≡◌, ◌≤◌, [], IfOk, None, length};
ghost use Rattle.table_verify.specs.JumpFaults.{IsFront};
ghost use Rattle.table_verify.specs.Jumping as spec;

use crate::jump::start;
use crate::nesting::nesting_fault;
use sip_tables::{Instruction, Tables};
use std::alloc::{AllocError, Global};

/// How many instructions begin the code of some program.
#[tactic(auto, using(crate::proofs::JumpFaults::front_at, crate::proofs::JumpFaults::front_all))]
pub fn front_len(alloc: Global, tables: &Tables) -> Result<usize, AllocError>
    ensures front { IfOk result (λ count. IsFront count tables.now) }
    ensures within { IfOk result (λ count. count ≤ length tables.now.code) }
{
    match nesting_fault(alloc, tables)? {
        Some(at) => Ok(at),
        None => Ok(tables.code_len()),
    }
}

/// The first instruction of code whose jump is wrong.
pub fn first_wrong(alloc: Global, code: &[Instruction]) -> Result<Option<usize>, AllocError>
    ensures { IfOk result (λ at. at ≡ spec.first_wrong None (spec.all_compared 0 [] code.now)) }
{
    let mut walk = start(alloc);
    for (at, instruction) in code.iter().enumerate() {
        walk.step(at, &instruction.operation)?;
    }
    Ok(walk.wrong)
}
