//! Where tables lead elsewhere than a program.

ghost use Rattle.std.specs.Prelude.{◌≡◌, IfOk};
ghost use Rattle.table_verify.specs.JumpFaults.{IsFirst};
ghost use Rattle.table_verify.specs.TargetFaults.{TargetAt};

use crate::jumping::{first_wrong, front_len};
use crate::starting::{earlier, first_call, some_other, starts};
use sip_tables::Tables;
use std::alloc::{AllocError, Global};

/// The number of the first instruction that leads elsewhere than lines and nesting tell, if there is one: by its jump, or by a call of a
/// procedure that starts elsewhere. Procedures' entries count as the first instruction. From the one on at which nesting breaks nothing is told.
pub fn target_fault(alloc: Global, tables: &Tables) -> Result<Option<usize>, AllocError>
    ensures { IfOk result (λ found. IsFirst (λ at. TargetAt at tables.now) found) }
{
    let count = front_len(alloc, tables)?;
    let code = &tables.code()[..count];
    let starts = starts(alloc, code)?;
    if some_other(starts.as_slice(), tables.procedures()) {
        return Ok(Some(0));
    }
    let call = first_call(tables.procedures_len(), starts.as_slice(), code);
    Ok(earlier(first_wrong(alloc, code)?, call))
}
