//! The second round of refusals: arrays in order of declaration.

ghost use Rattle.std.specs.Prelude.{◌≡◌, ◌++◌, ◌∷◌, [], ◌^◌, ◌-◌, min};
ghost use Rattle.sial_syntax.specs.Spaces as sp;
ghost use Rattle.index_spaces.specs.Found.{seen};
ghost use Rattle.index_spaces.specs.Refusing as spec;

use crate::fault::{Refusal, SpaceKind};
use crate::laying::is_kind;
use crate::spaces::Spaces;
use sial_syntax::{ArrayDecl, ArrayKind};

/// The first refusal of arrays.
pub fn arrays_refused<'a>(spaces: &Spaces, arrays: &'a [ArrayDecl]) -> Option<Refusal<'a>>
    ensures { seen result ≡ spec.arrays_refusal spaces.now.spaces [] arrays.now }
{
    for (place, array) in arrays.iter().enumerate() {
        if let Some(refusal) = array_refused(spaces, &arrays[..place], array) {
            return Some(refusal);
        }
    }
    None
}

// The refusal of an array behind others.
fn array_refused<'a>(
    spaces: &Spaces,
    before: &[ArrayDecl],
    array: &'a ArrayDecl,
) -> Option<Refusal<'a>>
    ensures { seen result ≡ spec.array_refusal spaces.now.spaces before.now array.now }
{
    let name = array.name.as_slice();
    let dims = array.dims.as_slice();
    let words = spaces.widest_block(dims);
    if words > 65536 {
        return Some(Refusal {
            kind: SpaceKind::BlockTooWide,
            name,
            value: words,
        });
    }
    if matches!(array.kind, ArrayKind::Temp) {
        return None;
    }
    count_refused(name, spaces.box_len(dims), together(spaces, before, array))
}

// The refusal of an array with so many blocks, and so many of its kind up to it.
fn count_refused(name: &[u8], own: u64, together: u64) -> Option<Refusal<'_>>
    ensures { seen result ≡ spec.count_refusal name.now own together }
{
    let kind = SpaceKind::TooManyBlocks;
    if own > 1 << 20 {
        Some(Refusal {
            kind,
            name,
            value: own,
        })
    } else if together > 1 << 24 {
        Some(Refusal {
            kind,
            name,
            value: together,
        })
    } else {
        None
    }
}

// How many blocks the arrays of a kind have up to one of them, as far as a `u64` goes.
fn together(spaces: &Spaces, before: &[ArrayDecl], array: &ArrayDecl) -> u64
    ensures { result ≡ min (sp.blocks_together spaces.now.spaces array.now.kind (before.now ++ array.now ∷ [])) (2 ^ 64 - 1) }
{
    let own = spaces.box_len(array.dims.as_slice());
    before_together(spaces, array.kind, before).saturating_add(own)
}

// How many blocks the arrays of a kind have together, as far as a `u64` goes.
fn before_together(spaces: &Spaces, kind: ArrayKind, arrays: &[ArrayDecl]) -> u64
    ensures { result ≡ min (sp.blocks_together spaces.now.spaces kind arrays.now) (2 ^ 64 - 1) }
{
    let mut total = 0u64;
    for array in arrays {
        if is_kind(array.kind, kind) {
            total = total.saturating_add(spaces.box_len(array.dims.as_slice()));
        }
    }
    total
}
