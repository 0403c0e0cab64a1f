//! Where procedures begin.

ghost use Rattle.std.specs.Prelude.{◌≡◌, IfOk, map};
ghost use Rattle.sial_syntax.specs.Tree.{procedure};
ghost use Rattle.sip_tables.specs.Code.{entries_from};

use crate::numbers::{number, plus};
use crate::sizes::sizes;
use sial_syntax::Proc;
use sip_files::OutOfMemory;
use std::alloc::Global;

/// The numbers of the first instructions of procedures, the first of which begins at a place.
pub fn entries(alloc: Global, at: usize, procedures: &[Proc]) -> Result<Vec<u32>, OutOfMemory>
    ensures { IfOk result (λ v. v.items ≡ entries_from at (map procedure procedures.now)) }
{
    let mut entries = Vec::new(alloc);
    let mut next = at;
    for procedure in procedures {
        entries.push(number(next)?)?;
        next = plus(next, plus(sizes(procedure.body.as_slice())?, 1)?)?;
    }
    Ok(entries)
}
