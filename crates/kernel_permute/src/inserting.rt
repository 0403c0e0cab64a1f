//! Parts of blocks put in.

ghost use Rattle.std.specs.Prelude.{◌≡◌, ◌+◌, ◌*◌, ◌≤◌, ◌<◌, [], ◌∷◌, length};
ghost use Rattle.kernel_permute.specs.Inserting.{inserted};
ghost use Rattle.kernel_permute.specs.Parts.{dims_of, sizes, starts};
ghost use Rattle.kernel_permute.specs.Positions.{product};
ghost use Rattle.kernel_permute.specs.Slicing.{IsPart};

use crate::how::How;
use crate::part::{Part, parts_of, row_size, row_width};
use crate::rows::meet_row;

/// Puts a block into a part of another: the one that begins at `at` and is as large as the source. The rest stays.
///
///     to[at + p] = how(to[at + p], from[p])     for each position p of the source, dimension by dimension
///
/// `size` are the source's lengths, `dims` the target's, in elements; the part lies within the target. Both blocks lie
/// with their last dimension fastest. Two rows into rows 1 and 2 of a block of 4 by 3: `size` is `[2, 3]`, `dims` is
/// `[4, 3]`, `at` is `[1, 0]`.
pub fn put_in<const R: usize>(
    from: &[u64],
    size: &[u32; R],
    to: &mut [u64],
    dims: &[u32; R],
    at: &[u32; R],
    how: How,
)
    requires rank { R ≤ 6 }
    requires part { IsPart at.now size.now dims.now }
    requires from_length { length from.now ≡ product size.now }
    requires to_length { length to.old ≡ product dims.now }
    ensures value { to.new ≡ inserted how size.now from.now dims.now at.now to.old }
{
    if from.is_empty() {
        return;
    }
    let parts = parts_of(at, size, dims);
    insert(from, &parts, to, how);
}

// A part that is not empty.
#[cycle(insertion)]
#[inline(always)]
fn insert(from: &[u64], parts: &[Part], to: &mut [u64], how: How)
    requires part { IsPart (starts parts.now) (sizes parts.now) (dims_of parts.now) }
    requires from_length { length from.now ≡ product (sizes parts.now) }
    requires to_length { length to.old ≡ product (dims_of parts.now) }
    requires some { 0 < length from.now }
    ensures value { to.new ≡ inserted how (sizes parts.now) from.now (dims_of parts.now) (starts parts.now) to.old }
{
    match parts {
        [row] => insert_row(from, *row, to, how),
        _ => insert_block(from, parts, to, how),
    }
}

// Row by row, so that only a block of rows costs a call.
#[cycle(insertion)]
#[inline(never)]
fn insert_block(from: &[u64], parts: &[Part], to: &mut [u64], how: How)
    requires part { IsPart (starts parts.now) (sizes parts.now) (dims_of parts.now) }
    requires from_length { length from.now ≡ product (sizes parts.now) }
    requires to_length { length to.old ≡ product (dims_of parts.now) }
    requires some { 0 < length from.now }
    ensures value { to.new ≡ inserted how (sizes parts.now) from.now (dims_of parts.now) (starts parts.now) to.old }
{
    match parts {
        [] => to[0] = how.combine(to[0], from[0]),
        [first, rest @ ..] => {
            let width = row_width(first.dim, rest, to.len());
            let inner = &mut to[first.at * width..(first.at + first.size) * width];
            insert_within(from, first.size, rest, inner, how);
        }
    }
}

// The same part of each of so many blocks.
#[cycle(insertion)]
#[inline(always)]
fn insert_within(from: &[u64], count: usize, rest: &[Part], to: &mut [u64], how: How)
    requires part { IsPart (starts rest.now) (sizes rest.now) (dims_of rest.now) }
    requires from_length { length from.now ≡ product (count ∷ sizes rest.now) }
    requires to_length { length to.old ≡ product (count ∷ dims_of rest.now) }
    requires some { 0 < length from.now }
    ensures value { to.new ≡ inserted how (count ∷ sizes rest.now) from.now (count ∷ dims_of rest.now) (0 ∷ starts rest.now) to.old }
{
    match rest {
        [row] => insert_rows(from, count, *row, to, how),
        _ => insert_blocks(from, count, rest, to, how),
    }
}

#[cycle(insertion)]
#[inline(always)]
fn insert_blocks(from: &[u64], count: usize, rest: &[Part], to: &mut [u64], how: How)
    requires part { IsPart (starts rest.now) (sizes rest.now) (dims_of rest.now) }
    requires from_length { length from.now ≡ product (count ∷ sizes rest.now) }
    requires to_length { length to.old ≡ product (count ∷ dims_of rest.now) }
    requires some { 0 < length from.now }
    ensures value { to.new ≡ inserted how (count ∷ sizes rest.now) from.now (count ∷ dims_of rest.now) (0 ∷ starts rest.now) to.old }
{
    let piece = row_size(count, rest, from.len());
    let width = row_width(count, rest, to.len());
    for i in 0..count {
        insert(
            &from[i * piece..(i + 1) * piece],
            rest,
            &mut to[i * width..(i + 1) * width],
            how,
        );
    }
}

// The same part of each of so many rows.
#[inline(always)]
fn insert_rows(from: &[u64], count: usize, row: Part, to: &mut [u64], how: How)
    requires part { row.at + row.size ≤ row.dim }
    requires from_length { length from.now ≡ count * row.size }
    requires to_length { length to.old ≡ count * row.dim }
    ensures value { to.new ≡ inserted how (count ∷ row.size ∷ []) from.now (count ∷ row.dim ∷ []) (0 ∷ row.at ∷ []) to.old }
{
    for i in 0..count {
        insert_row(
            &from[i * row.size..(i + 1) * row.size],
            row,
            &mut to[i * row.dim..(i + 1) * row.dim],
            how,
        );
    }
}

// A row of the part.
#[inline(always)]
fn insert_row(from: &[u64], row: Part, to: &mut [u64], how: How)
    requires part { row.at + row.size ≤ row.dim }
    requires from_length { length from.now ≡ row.size }
    requires to_length { length to.old ≡ row.dim }
    ensures value { to.new ≡ inserted how (row.size ∷ []) from.now (row.dim ∷ []) (row.at ∷ []) to.old }
{
    meet_row(from, &mut to[row.at..row.at + row.size], how);
}
