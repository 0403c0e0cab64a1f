//! The kinds of indices.

ghost use Rattle.std.specs.Prelude.{◌≡◌, [], IfOk};
ghost use Rattle.sial_syntax.specs.Agreeing as spec;

use sial_syntax::{IndexDecl, Kind, Range};
use std::alloc::{AllocError, Global};

/// The kind of each index; a subindex has that of its super index, which stands before it.
pub fn kinds(alloc: Global, indices: &[IndexDecl]) -> Result<Vec<Kind>, AllocError>
    ensures { IfOk result (λ kinds. kinds.items ≡ spec.kinds_after [] indices.now) }
{
    let mut kinds = Vec::with_capacity(alloc, indices.len())?;
    for index in indices {
        let kind = range_kind(kinds.as_slice(), &index.range);
        kinds.push(kind)?;
    }
    Ok(kinds)
}

// The kind of a range, where those of the indices before it are known.
fn range_kind(before: &[Kind], range: &Range) -> Kind
    ensures { result ≡ spec.range_kind before.now range.now }
{
    match range {
        Range::Segments { kind, .. } => *kind,
        Range::Sub { super_index } => before
            .get(*super_index as usize)
            .copied()
            .unwrap_or(Kind::Index),
    }
}
