//! The counts of the blocks of arrays, one array behind the other.

ghost use Rattle.std.specs.Prelude.{◌≡◌, ◌-◌, ◌^◌, [], map, min, IfOk, IsTrue};
ghost use Rattle.sial_syntax.specs.Boxes.{volume};
ghost use Rattle.sial_syntax.specs.Spaces as sp;
ghost use Rattle.index_spaces.specs.Laid.{AreFewTogether, are_few, are_laid, decls_of, kept_together, over};
ghost use Rattle.index_spaces.specs.Placed.{bare, spans_of};

use crate::blocks::Blocks;
use crate::ranges::box_len;
use crate::span::Span;
use sial_syntax::{ArrayDecl, ArrayKind, Tuple};
use std::alloc::{AllocError, Global};

/// The blocks of each array.
pub fn laid_out(
    alloc: Global,
    spans: &[Span],
    arrays: &[ArrayDecl],
) -> Result<Vec<Blocks>, AllocError>
    requires few { IsTrue (are_few (spans_of spans.now) arrays.now) }
    requires together { AreFewTogether (spans_of spans.now) arrays.now }
    ensures decls { IfOk result (λ blocks. decls_of blocks.items ≡ map bare arrays.now) }
    ensures laid { IfOk result (λ blocks. IsTrue (are_laid (spans_of spans.now) [] blocks.items)) }
{
    let mut blocks = Vec::with_capacity(alloc, arrays.len())?;
    for array in arrays {
        let dims = Tuple::from_slice(alloc, array.dims.as_slice())?;
        let count = count_of(spans, dims.as_slice());
        let first = kept(array.kind, blocks.as_slice());
        blocks.push(Blocks {
            kind: array.kind,
            dims,
            count,
            first,
        })?;
    }
    Ok(blocks)
}

// How many blocks an array over some indices has, as far as a `u32` goes.
fn count_of(spans: &[Span], dims: &[u16]) -> u32
    ensures { result ≡ min (volume (sp.box_of (over (spans_of spans.now)) dims.now)) (2 ^ 32 - 1) }
{
    box_len(spans, dims).min(u32::MAX as u64) as u32
}

// How many blocks the arrays of a kind have so far, as far as a `u32` goes.
fn kept(kind: ArrayKind, blocks: &[Blocks]) -> u32
    ensures { result ≡ min (kept_together kind blocks.now) (2 ^ 32 - 1) }
{
    let mut total = 0u32;
    for array in blocks {
        if is_kind(array.kind, kind) {
            total = total.saturating_add(array.count);
        }
    }
    total
}

/// Whether two kinds of array are one.
pub fn is_kind(kind: ArrayKind, other: ArrayKind) -> bool
    ensures { result ≡ sp.same_kind kind other }
{
    matches!(
        (kind, other),
        (ArrayKind::Static, ArrayKind::Static)
            | (ArrayKind::Temp, ArrayKind::Temp)
            | (ArrayKind::Local, ArrayKind::Local)
            | (ArrayKind::Distributed, ArrayKind::Distributed)
            | (ArrayKind::Served, ArrayKind::Served)
    )
}
