//! Indices and lengths, in the arrays that kernels take.

ghost use Rattle.std.specs.Prelude.{◌≡◌, ◌^◌, ◌<◌, ◌≤◌, length, map, take};
ghost use Rattle.sial_syntax.specs.Boxes.{volume};
ghost use Rattle.sial_syntax.specs.Agreeing.{all_in, contains, same_set};
ghost use Rattle.sial_meaning.specs.Sight.{lengths};
ghost use Rattle.exec_sides.specs.Named.{place_among};
ghost use Rattle.exec_sides.specs.Seen.{extents_of};

use exec_names::Extent;

/// How many positions each of some extents has.
pub fn dims_of(extents: &[Extent]) -> [u32; 6]
    requires { length extents.now ≤ 6 }
    ensures { take (length extents.now) result ≡ lengths (extents_of extents.now) }
{
    let mut dims = [0u32; 6];
    for (k, extent) in extents.iter().enumerate() {
        dims[k] = extent.len;
    }
    dims
}

/// The place of each of some indices among others.
pub fn order_of(to: &[u16], from: &[u16]) -> [u8; 6]
    requires some { length to.now ≤ 6 }
    requires most { length from.now ≤ 6 }
    ensures { take (length to.now) result ≡ map (place_among from.now) to.now }
{
    let mut order = [0u8; 6];
    for (k, index) in to.iter().enumerate() {
        order[k] = place_of(from, *index) as u8;
    }
    order
}

// The place of an index among others.
fn place_of(indices: &[u16], index: u16) -> usize
    ensures value { result ≡ place_among indices.now index }
    ensures within { result ≤ length indices.now }
{
    match indices {
        [] => 0,
        [first, rest @ ..] => {
            if *first == index {
                0
            } else {
                place_of(rest, index) + 1
            }
        }
    }
}

/// Whether an index stands among some.
pub fn has(indices: &[u16], index: u16) -> bool
    ensures { result ≡ contains indices.now index }
{
    match indices {
        [] => false,
        [first, rest @ ..] => *first == index || has(rest, index),
    }
}

/// Whether two blocks have the same indices, in any order.
pub fn have_same(first: &[u16], second: &[u16]) -> bool
    ensures { result ≡ same_set first.now second.now }
{
    are_in(first, second) && are_in(second, first)
}

// Whether each of some indices stands among others.
fn are_in(indices: &[u16], others: &[u16]) -> bool
    ensures { result ≡ all_in indices.now others.now }
{
    match indices {
        [] => true,
        [first, rest @ ..] => has(others, *first) && are_in(rest, others),
    }
}

/// How many positions some extents have together.
pub fn product_of(extents: &[Extent]) -> u32
    requires some { 0 < volume (lengths (extents_of extents.now)) }
    requires few { volume (lengths (extents_of extents.now)) < 2 ^ 32 }
    ensures { result ≡ volume (lengths (extents_of extents.now)) }
{
    match extents {
        [] => 1,
        [extent, rest @ ..] => extent.len * product_of(rest),
    }
}
