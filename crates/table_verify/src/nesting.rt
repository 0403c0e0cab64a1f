//! Where the nesting of code breaks.

ghost use Rattle.std.specs.Prelude.{◌≡◌, ◌≤◌, IfOk, IfSome, None, length};
ghost use Rattle.sial_syntax.specs.Tree.{Tree};
ghost use Rattle.table_verify.specs.Faults.{NestAt, Nests};
ghost use Rattle.table_verify.specs.Nesting as spec;
ghost use Rattle.table_verify.specs.Outline.{outline};

use crate::nest::start;
use sip_tables::{Instruction, Tables};
use std::alloc::{AllocError, Global};

/// The number of the first instruction up to which tables are those of no program for their lines and their nesting, or None where
/// some program has all these.
pub fn nesting_fault(alloc: Global, tables: &Tables) -> Result<Option<usize>, AllocError>
    // At this instruction nesting breaks.
    ensures fault { IfOk result (λ at. IfSome at (λ n. NestAt n tables.now)) }

    // Otherwise some program with as many procedures nests so.
    ensures none { IfOk result (λ at. at ≡ None → (p : Tree) × Nests tables.now p) }

    ensures within { IfOk result (λ at. IfSome at (λ n. n ≤ length tables.now.code)) }
{
    broken(alloc, tables.procedures_len(), tables.code())
}

// The number of the first instruction that may not stand there, or of all of them where not all is ended.
fn broken(
    alloc: Global,
    procedures: usize,
    code: &[Instruction],
) -> Result<Option<usize>, AllocError>
    ensures exact { IfOk result (λ at. at ≡ spec.broken_at 0 (outline code.now) (spec.start procedures)) }
    ensures within { IfOk result (λ at. IfSome at (λ n. n ≤ length code.now)) }
{
    let mut nest = start(alloc, procedures);
    for (at, instruction) in code.iter().enumerate() {
        if !nest.step(instruction)? {
            return Ok(Some(at));
        }
    }
    if nest.is_over() {
        Ok(None)
    } else {
        Ok(Some(code.len()))
    }
}
