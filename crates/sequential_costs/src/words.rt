//! How many words a checker of the epoch rule takes.

ghost use Rattle.std.specs.Prelude.{◌≡◌, ◌+◌, ◌-◌, ◌^◌, ◌||◌, min, length, sum_by, if◌then◌else◌};
ghost use Rattle.sequential_costs.specs.Over.{over};
ghost use Rattle.sial_meaning.specs.Costs as spec;
ghost use Rattle.sial_syntax.specs.Spaces.{blocks_of, same_kind};
ghost use Rattle.sip_setting.specs.Seen.{setting_of};

use index_spaces::Spaces;
use sial_syntax::{ArrayDecl, ArrayKind};
use sip_setting::Granted;

/// The elements of all shared arrays, and as many of the widest blocks as there are static and local blocks, temps and
/// three more; as far as a `u64` goes.
pub fn sequential_words(granted: &Granted) -> u64
    ensures { result ≡ min (spec.sequential_words (setting_of granted.now)) (2 ^ 64 - 1) }
{
    words_over(&granted.spaces, granted.program.arrays.as_slice())
}

// The words for these arrays.
#[tactic(auto, using(crate::proofs::WordLemmas::words_kept))]
fn words_over(spaces: &Spaces, arrays: &[ArrayDecl]) -> u64
    ensures { result ≡ min (spec.sequential_words (over spaces.now.spaces arrays.now)) (2 ^ 64 - 1) }
{
    let shared = shared_elements(spaces, arrays);
    let width = block_width(spaces, arrays);
    let own = own_blocks(spaces, arrays);
    shared.saturating_add(width.saturating_mul(own))
}

// The elements of all shared arrays.
#[tactic(auto, using(crate::proofs::WordLemmas::one_shared))]
fn shared_elements(spaces: &Spaces, arrays: &[ArrayDecl]) -> u64
    ensures { result ≡ min (sum_by (spec.elements_of spaces.now.spaces) (spec.arrays_of (over spaces.now.spaces arrays.now) ArrayKind.Distributed ArrayKind.Served)) (2 ^ 64 - 1) }
{
    let mut elements = 0u64;
    for array in arrays {
        elements = elements.saturating_add(elements_if_shared(spaces, array));
    }
    elements
}

// The elements of an array, if it is shared.
fn elements_if_shared(spaces: &Spaces, array: &ArrayDecl) -> u64
    ensures { result ≡ min (if same_kind array.now.kind ArrayKind.Distributed || same_kind array.now.kind ArrayKind.Served then spec.elements_of spaces.now.spaces array.now else 0) (2 ^ 64 - 1) }
{
    match array.kind {
        ArrayKind::Distributed => spaces.elements_over(array.dims.as_slice()),
        ArrayKind::Served => spaces.elements_over(array.dims.as_slice()),
        _ => 0,
    }
}

// The words of the widest block, at least 1.
#[tactic(auto, using(crate::proofs::WordLemmas::fold_max, crate::proofs::WordLemmas::one_width))]
fn block_width(spaces: &Spaces, arrays: &[ArrayDecl]) -> u64
    ensures { result ≡ min (spec.block_width (over spaces.now.spaces arrays.now)) (2 ^ 64 - 1) }
{
    let mut width = 1u64;
    for array in arrays {
        width = spaces.widest_block(array.dims.as_slice()).max(width);
    }
    width
}

// How many static and local blocks and temps there are, and three more.
#[tactic(auto, using(crate::proofs::WordLemmas::one_own))]
fn own_blocks(spaces: &Spaces, arrays: &[ArrayDecl]) -> u64
    ensures { result ≡ min (sum_by (blocks_of spaces.now.spaces) (spec.arrays_of (over spaces.now.spaces arrays.now) ArrayKind.Static ArrayKind.Local)
        + (length (spec.arrays_of (over spaces.now.spaces arrays.now) ArrayKind.Temp ArrayKind.Temp) + 3)) (2 ^ 64 - 1) }
{
    let mut blocks = 3u64;
    for array in arrays {
        blocks = blocks.saturating_add(blocks_if_own(spaces, array));
    }
    blocks
}

// How many blocks of an array a worker has places for, one for a temp.
fn blocks_if_own(spaces: &Spaces, array: &ArrayDecl) -> u64
    ensures { result ≡ min ((if same_kind array.now.kind ArrayKind.Static || same_kind array.now.kind ArrayKind.Local then blocks_of spaces.now.spaces array.now else 0)
        + (if same_kind array.now.kind ArrayKind.Temp || same_kind array.now.kind ArrayKind.Temp then 1 else 0)) (2 ^ 64 - 1) }
{
    match array.kind {
        ArrayKind::Static => spaces.box_len(array.dims.as_slice()),
        ArrayKind::Local => spaces.box_len(array.dims.as_slice()),
        ArrayKind::Temp => 1,
        _ => 0,
    }
}
