//! Parts of blocks taken out.

ghost use Rattle.std.specs.Prelude.{◌≡◌, ◌+◌, ◌*◌, ◌≤◌, ◌<◌, [], ◌∷◌, length};
ghost use Rattle.kernel_permute.specs.Parts.{dims_of, sizes, starts};
ghost use Rattle.kernel_permute.specs.Positions.{product};
ghost use Rattle.kernel_permute.specs.Slicing.{IsPart, sliced};

use crate::how::How;
use crate::part::{Part, parts_of, row_size, row_width};
use crate::rows::meet_row;

/// Takes a part out of a block: the one that begins at `at` and has `size` elements along each dimension.
///
///     to[p] = how(to[p], from[at + p])     for each position p of the part, dimension by dimension
///
/// `dims` are the source's lengths, `size` the target's, in elements; the part lies within the source. Both blocks lie
/// with their last dimension fastest. Rows 1 and 2 of a block of 4 by 3: `dims` is `[4, 3]`, `at` is `[1, 0]`, `size` is
/// `[2, 3]`.
pub fn slice_out<const R: usize>(
    from: &[u64],
    dims: &[u32; R],
    at: &[u32; R],
    size: &[u32; R],
    to: &mut [u64],
    how: How,
)
    requires rank { R ≤ 6 }
    requires part { IsPart at.now size.now dims.now }
    requires from_length { length from.now ≡ product dims.now }
    requires to_length { length to.old ≡ product size.now }
    ensures value { to.new ≡ sliced how dims.now at.now size.now from.now to.old }
{
    if to.is_empty() {
        return;
    }
    let parts = parts_of(at, size, dims);
    slice(from, &parts, to, how);
}

// A part that is not empty.
#[cycle(slicing)]
#[inline(always)]
fn slice(from: &[u64], parts: &[Part], to: &mut [u64], how: How)
    requires part { IsPart (starts parts.now) (sizes parts.now) (dims_of parts.now) }
    requires from_length { length from.now ≡ product (dims_of parts.now) }
    requires to_length { length to.old ≡ product (sizes parts.now) }
    requires some { 0 < length to.old }
    ensures value { to.new ≡ sliced how (dims_of parts.now) (starts parts.now) (sizes parts.now) from.now to.old }
{
    match parts {
        [row] => slice_row(from, *row, to, how),
        _ => slice_block(from, parts, to, how),
    }
}

// Row by row, so that only a block of rows costs a call.
#[cycle(slicing)]
#[inline(never)]
fn slice_block(from: &[u64], parts: &[Part], to: &mut [u64], how: How)
    requires part { IsPart (starts parts.now) (sizes parts.now) (dims_of parts.now) }
    requires from_length { length from.now ≡ product (dims_of parts.now) }
    requires to_length { length to.old ≡ product (sizes parts.now) }
    requires some { 0 < length to.old }
    ensures value { to.new ≡ sliced how (dims_of parts.now) (starts parts.now) (sizes parts.now) from.now to.old }
{
    match parts {
        [] => to[0] = how.combine(to[0], from[0]),
        [first, rest @ ..] => {
            let width = row_width(first.dim, rest, from.len());
            let inner = &from[first.at * width..(first.at + first.size) * width];
            slice_within(inner, first.size, rest, to, how);
        }
    }
}

// The same part of each of so many blocks.
#[cycle(slicing)]
#[inline(always)]
fn slice_within(from: &[u64], count: usize, rest: &[Part], to: &mut [u64], how: How)
    requires part { IsPart (starts rest.now) (sizes rest.now) (dims_of rest.now) }
    requires from_length { length from.now ≡ product (count ∷ dims_of rest.now) }
    requires to_length { length to.old ≡ product (count ∷ sizes rest.now) }
    requires some { 0 < length to.old }
    ensures value { to.new ≡ sliced how (count ∷ dims_of rest.now) (0 ∷ starts rest.now) (count ∷ sizes rest.now) from.now to.old }
{
    match rest {
        [row] => slice_rows(from, count, *row, to, how),
        _ => slice_blocks(from, count, rest, to, how),
    }
}

#[cycle(slicing)]
#[inline(always)]
fn slice_blocks(from: &[u64], count: usize, rest: &[Part], to: &mut [u64], how: How)
    requires part { IsPart (starts rest.now) (sizes rest.now) (dims_of rest.now) }
    requires from_length { length from.now ≡ product (count ∷ dims_of rest.now) }
    requires to_length { length to.old ≡ product (count ∷ sizes rest.now) }
    requires some { 0 < length to.old }
    ensures value { to.new ≡ sliced how (count ∷ dims_of rest.now) (0 ∷ starts rest.now) (count ∷ sizes rest.now) from.now to.old }
{
    let width = row_width(count, rest, from.len());
    let piece = row_size(count, rest, to.len());
    for i in 0..count {
        slice(
            &from[i * width..(i + 1) * width],
            rest,
            &mut to[i * piece..(i + 1) * piece],
            how,
        );
    }
}

// The same part of each of so many rows.
#[inline(always)]
fn slice_rows(from: &[u64], count: usize, row: Part, to: &mut [u64], how: How)
    requires part { row.at + row.size ≤ row.dim }
    requires from_length { length from.now ≡ count * row.dim }
    requires to_length { length to.old ≡ count * row.size }
    ensures value { to.new ≡ sliced how (count ∷ row.dim ∷ []) (0 ∷ row.at ∷ []) (count ∷ row.size ∷ []) from.now to.old }
{
    for i in 0..count {
        slice_row(
            &from[i * row.dim..(i + 1) * row.dim],
            row,
            &mut to[i * row.size..(i + 1) * row.size],
            how,
        );
    }
}

// A row of the part.
#[inline(always)]
fn slice_row(from: &[u64], row: Part, to: &mut [u64], how: How)
    requires part { row.at + row.size ≤ row.dim }
    requires from_length { length from.now ≡ row.dim }
    requires to_length { length to.old ≡ row.size }
    ensures value { to.new ≡ sliced how (row.dim ∷ []) (row.at ∷ []) (row.size ∷ []) from.now to.old }
{
    meet_row(&from[row.at..row.at + row.size], to, how);
}
