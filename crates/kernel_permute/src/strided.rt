//! Reading a source along strides into a target that is written in order.

ghost use Rattle.std.specs.Prelude.{◌≡◌, ◌+◌, ◌*◌, ◌-◌, ◌/◌, ◌<◌, [], ◌∷◌, length};
ghost use Rattle.kernel_permute.specs.Positions.{each_number, product};
ghost use Rattle.kernel_permute.specs.Strided.{lengths, met, reach, strides};

use crate::axis::Axis;
use crate::how::How;

// One row: each number of the target meets one of the source.
#[inline(always)]
fn read_row(from: &[u64], base: usize, stride: usize, to: &mut [u64], how: How)
    requires within { base + (length to.old - 1) * stride < length from.now }
    ensures value { to.new ≡ each_number (met how from.now base (stride ∷ [])) (length to.old ∷ []) to.old }
{
    for (i, number) in to.iter_mut().enumerate() {
        *number = how.combine(*number, from[base + i * stride]);
    }
}

/// Each number of the target meets the source's, which lies so far along the axes from the base.
#[cycle(reading)]
#[inline(always)]
pub fn read(from: &[u64], base: usize, axes: &[Axis], to: &mut [u64], how: How)
    requires same_length { length to.old ≡ product (lengths axes.now) }
    requires some { 0 < length to.old }
    requires within { base + reach axes.now < length from.now }
    ensures value { to.new ≡ each_number (met how from.now base (strides axes.now)) (lengths axes.now) to.old }
{
    match axes {
        [row] => read_row(from, base, row.stride, to, how),
        _ => read_block(from, base, axes, to, how),
    }
}

// Row by row, so that only a block of rows costs a call.
#[cycle(reading)]
#[inline(never)]
fn read_block(from: &[u64], base: usize, axes: &[Axis], to: &mut [u64], how: How)
    requires same_length { length to.old ≡ product (lengths axes.now) }
    requires some { 0 < length to.old }
    requires within { base + reach axes.now < length from.now }
    ensures value { to.new ≡ each_number (met how from.now base (strides axes.now)) (lengths axes.now) to.old }
{
    match axes {
        [] => to[0] = how.combine(to[0], from[base]),
        [first, rest @ ..] => {
            let width = row_width(first, rest, to.len());
            for i in 0..first.len {
                read(
                    from,
                    base + i * first.stride,
                    rest,
                    &mut to[i * width..(i + 1) * width],
                    how,
                );
            }
        }
    }
}

// How many numbers of the target lie between two steps along the first axis: where few axes follow,
// told without a division, which would cost as much as a short row.
#[inline(always)]
fn row_width(first: &Axis, rest: &[Axis], count: usize) -> usize
    requires count { count ≡ first.now.len * product (lengths rest.now) }
    requires some { 0 < count }
    ensures { result ≡ count / first.now.len }
{
    match rest {
        [row] => row.len,
        [rows, row] => rows.len * row.len,
        _ => count / first.len,
    }
}
