//! A test of the condition of a contraction, for targets that lie by rows.

ghost use Rattle.std.specs.Prelude.{◌≡◌, ◌+◌, ◌-◌, ◌^◌, IsTrue, min};
ghost use Rattle.kernel_contract.specs.Contraction.{Fits};
ghost use Rattle.kernel_contract.specs.Order.{by_rows, greatest, keeps_apart, nested, stride_in};

use crate::axis::Axis;

/// Whether all positions lie in slices of these lengths, and the target lies by rows: its axes taken by
/// falling stride, each has one position, or a longer stride than what the axes after it reach.
///
/// Each list is to be given by falling stride in the target; the axes of one may lie between those of
/// the other. A contraction may fit where this is false, since a target need not lie by rows.
pub fn is_by_rows(
    a: usize,
    b: usize,
    to: usize,
    free_a: &[Axis],
    free_b: &[Axis],
    shared: &[Axis],
) -> bool
    ensures value { result ≡ by_rows a b to free_a.now free_b.now shared.now }
    ensures fits { IsTrue result → Fits a b to free_a.now free_b.now shared.now }
{
    lies_by_rows(a, b, to, free_a, free_b, shared)
}

fn lies_by_rows(
    a: usize,
    b: usize,
    to: usize,
    free_a: &[Axis],
    free_b: &[Axis],
    shared: &[Axis],
) -> bool
    ensures { result ≡ by_rows a b to free_a.now free_b.now shared.now }
{
    reach(free_a, shared, Side::A) < a as u64
        && reach(free_b, shared, Side::B) < b as u64
        && reach(free_a, free_b, Side::To) < to as u64
        && is_nested(free_a, free_b)
}

/// One of the three lists of numbers.
#[derive(Clone, Copy)]
pub enum Side {
    A,
    B,
    To,
}

impl Side {
    fn stride(self, axis: Axis) -> u32
        ensures { result ≡ stride_in self axis }
    {
        match self {
            Side::A => axis.a,
            Side::B => axis.b,
            Side::To => axis.to,
        }
    }
}

// the greatest offset of a position, as far as a `u64` goes
fn longest(axes: &[Axis], side: Side) -> u64
    ensures { result ≡ min (greatest (stride_in side) axes.now) (2 ^ 64 - 1) }
{
    match axes {
        [] => 0,
        [axis, rest @ ..] => {
            let last = axis.len.saturating_sub(1) as u64;
            (last * side.stride(*axis) as u64).saturating_add(longest(rest, side))
        }
    }
}

// the greatest sum of two offsets, as far as a `u64` goes
fn reach(first: &[Axis], second: &[Axis], side: Side) -> u64
    ensures { let both = greatest (stride_in side) first.now + greatest (stride_in side) second.now in
        result ≡ min both (2 ^ 64 - 1) }
{
    longest(first, side).saturating_add(longest(second, side))
}

// whether an axis keeps its positions apart in the target, wherever the other axes stand
fn keeps_apart(axis: &Axis, first: &[Axis], second: &[Axis]) -> bool
    ensures { result ≡ keeps_apart axis.now first.now second.now }
{
    axis.len < 2 || reach(first, second, Side::To) < axis.to as u64
}

// whether, taken by falling stride, each axis keeps its positions apart
fn is_nested(first: &[Axis], second: &[Axis]) -> bool
    ensures { result ≡ nested first.now second.now }
{
    match (first, second) {
        ([], []) => true,
        ([x, xs @ ..], []) => keeps_apart(x, xs, second) && is_nested(xs, second),
        ([], [y, ys @ ..]) => keeps_apart(y, first, ys) && is_nested(first, ys),
        ([x, xs @ ..], [y, ys @ ..]) => {
            if y.to < x.to {
                keeps_apart(x, xs, second) && is_nested(xs, second)
            } else {
                keeps_apart(y, first, ys) && is_nested(first, ys)
            }
        }
    }
}
