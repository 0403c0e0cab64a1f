//! The calls for a rank that is known only when they run.

ghost use Rattle.std.specs.Prelude.{◌≡◌, ◌≤◌, length, take};
ghost use Rattle.kernel_permute.specs.Inserting.{inserted};
ghost use Rattle.kernel_permute.specs.Permuting.{IsOrder, permuted, picked};
ghost use Rattle.kernel_permute.specs.Positions.{product};
ghost use Rattle.kernel_permute.specs.Slicing.{IsPart, sliced};

use crate::how::How;
use crate::inserting::put_in;
use crate::permuting::permute;
use crate::slicing::slice_out;

// One case for each rank: the call with the front parts of its arrays.
macro_rules! by_rank {
    ($rank:ident, $call:ident $arguments:tt) => {
        match $rank {
            1 => $call::<1> $arguments,
            2 => $call::<2> $arguments,
            3 => $call::<3> $arguments,
            4 => $call::<4> $arguments,
            5 => $call::<5> $arguments,
            6 => $call::<6> $arguments,
            _ => unreachable!(),
        }
    };
}

/// `permute` at this rank; only the first members of each array count.
pub fn permute_any(
    rank: u32,
    from: &[u64],
    dims: &[u32; 6],
    order: &[u8; 6],
    to: &mut [u64],
    how: How,
)
    requires some { 1 ≤ rank }
    requires most { rank ≤ 6 }
    requires order { IsOrder (take rank order.now) }
    requires from_length { length from.now ≡ product (take rank dims.now) }
    requires to_length { length to.old ≡ product (picked (take rank order.now) (take rank dims.now)) }
    ensures value { to.new ≡ permuted how (take rank dims.now) (take rank order.now) from.now to.old }
{
    by_rank!(
        rank,
        permute(
            from,
            dims.first_chunk().unwrap(),
            order.first_chunk().unwrap(),
            to,
            how
        )
    )
}

/// `slice_out` at this rank; only the first members of each array count.
pub fn slice_out_any(
    rank: u32,
    from: &[u64],
    dims: &[u32; 6],
    at: &[u32; 6],
    size: &[u32; 6],
    to: &mut [u64],
    how: How,
)
    requires some { 1 ≤ rank }
    requires most { rank ≤ 6 }
    requires part { IsPart (take rank at.now) (take rank size.now) (take rank dims.now) }
    requires from_length { length from.now ≡ product (take rank dims.now) }
    requires to_length { length to.old ≡ product (take rank size.now) }
    ensures value { to.new ≡ sliced how (take rank dims.now) (take rank at.now) (take rank size.now) from.now to.old }
{
    by_rank!(
        rank,
        slice_out(
            from,
            dims.first_chunk().unwrap(),
            at.first_chunk().unwrap(),
            size.first_chunk().unwrap(),
            to,
            how
        )
    )
}

/// `put_in` at this rank; only the first members of each array count.
pub fn put_in_any(
    rank: u32,
    from: &[u64],
    size: &[u32; 6],
    to: &mut [u64],
    dims: &[u32; 6],
    at: &[u32; 6],
    how: How,
)
    requires some { 1 ≤ rank }
    requires most { rank ≤ 6 }
    requires part { IsPart (take rank at.now) (take rank size.now) (take rank dims.now) }
    requires from_length { length from.now ≡ product (take rank size.now) }
    requires to_length { length to.old ≡ product (take rank dims.now) }
    ensures value { to.new ≡ inserted how (take rank size.now) from.now (take rank dims.now) (take rank at.now) to.old }
{
    by_rank!(
        rank,
        put_in(
            from,
            size.first_chunk().unwrap(),
            to,
            dims.first_chunk().unwrap(),
            at.first_chunk().unwrap(),
            how
        )
    )
}
