//! A part of a block taken out, or put into a block.

ghost use Rattle.std.specs.Prelude.{◌≡◌, ◌-◌, ◌≤◌, length, take, true};
ghost use Rattle.exec_names.specs.Naming.{extent_of};
ghost use Rattle.exec_sides.specs.Parts.{IsPartCopy, MetInPart, lie_in, lies_in, starts_in};
ghost use Rattle.exec_sides.specs.Seen.{extents_of, seen, sight_of};

use crate::indices::dims_of;
use crate::seen::{Seen, Shape};
use exec_names::Extent;
use kernel_permute::{How, put_in_any, slice_out_any};

/// Each number of the target meets that of the source at the same whole positions; where the source has none, it stays.
pub fn copy_part(to: &Shape, from: &Seen, into: &mut [u64], how: How)
    requires fits { IsPartCopy (sight_of to.now into.old) (seen from.now) }
    ensures { MetInPart how (sight_of to.now into.old) (seen from.now) into.new }
{
    if into.is_empty() {
        return;
    }
    if from.words.is_empty() {
        return;
    }
    if is_within(to.extents, from.shape.extents) {
        slice(to, from, into, how);
    } else {
        insert(to, from, into, how);
    }
}

// The target is a part of the source.
fn slice(to: &Shape, from: &Seen, into: &mut [u64], how: How)
    requires fits { IsPartCopy (sight_of to.now into.old) (seen from.now) }
    requires within { lie_in (extents_of to.now.extents.now) (extents_of from.now.shape.extents.now) ≡ true }
    ensures { MetInPart how (sight_of to.now into.old) (seen from.now) into.new }
{
    let dims = dims_of(from.shape.extents);
    let at = starts_of(to.extents, from.shape.extents);
    let size = dims_of(to.extents);
    slice_out_any(
        to.extents.len() as u32,
        from.words,
        &dims,
        &at,
        &size,
        into,
        how,
    );
}

// The source is a part of the target.
fn insert(to: &Shape, from: &Seen, into: &mut [u64], how: How)
    requires fits { IsPartCopy (sight_of to.now into.old) (seen from.now) }
    requires within { lie_in (extents_of from.now.shape.extents.now) (extents_of to.now.extents.now) ≡ true }
    ensures { MetInPart how (sight_of to.now into.old) (seen from.now) into.new }
{
    let dims = dims_of(to.extents);
    let at = starts_of(from.shape.extents, to.extents);
    let size = dims_of(from.shape.extents);
    put_in_any(
        to.extents.len() as u32,
        from.words,
        &size,
        into,
        &dims,
        &at,
        how,
    );
}

// Whether each extent lies within the other at its place.
fn is_within(parts: &[Extent], wholes: &[Extent]) -> bool
    ensures { result ≡ lie_in (extents_of parts.now) (extents_of wholes.now) }
{
    match parts {
        [] => match wholes {
            [] => true,
            [_, ..] => false,
        },
        [part, parts @ ..] => match wholes {
            [] => false,
            [whole, wholes @ ..] => lies_within(part, whole) && is_within(parts, wholes),
        },
    }
}

// Whether an extent lies within another.
fn lies_within(part: &Extent, whole: &Extent) -> bool
    ensures { result ≡ lies_in (extent_of part.now) (extent_of whole.now) }
{
    whole.start <= part.start && part.start + part.len as u64 <= whole.start + whole.len as u64
}

// Where each extent begins in the other at its place.
fn starts_of(parts: &[Extent], wholes: &[Extent]) -> [u32; 6]
    requires few { length parts.now ≤ 6 }
    requires same { length parts.now ≡ length wholes.now }
    requires within { lie_in (extents_of parts.now) (extents_of wholes.now) ≡ true }
    ensures { take (length parts.now) result ≡ starts_in (extents_of parts.now) (extents_of wholes.now) }
{
    let mut starts = [0u32; 6];
    for (k, part) in parts.iter().enumerate() {
        starts[k] = start_in(*part, wholes[k]);
    }
    starts
}

// Where an extent begins in another.
fn start_in(part: Extent, whole: Extent) -> u32
    requires { lies_in (extent_of part) (extent_of whole) ≡ true }
    ensures { result ≡ part.start - whole.start }
{
    part.start.saturating_sub(whole.start) as u32
}
