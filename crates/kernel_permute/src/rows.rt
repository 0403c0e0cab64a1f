//! Rows of neighbours, in which source and target lie side by side.

ghost use Rattle.std.specs.Prelude.{◌≡◌, ◌+◌, ◌*◌, ◌/◌, ◌≤◌, [], ◌∷◌, length};
ghost use Rattle.kernel_permute.specs.Positions.{each_number};
ghost use Rattle.kernel_permute.specs.Strided.{met, met_from};

use crate::how::How;

/// Each number of the target meets the source's at its place; where it is replaced, the row is copied.
#[inline(always)]
pub fn meet_row(from: &[u64], to: &mut [u64], how: How)
    requires same_length { length to.old ≡ length from.now }
    ensures value { to.new ≡ each_number (met how from.now 0 (1 ∷ [])) (length to.old ∷ []) to.old }
{
    match how {
        How::Set => to.copy_from_slice(from),
        How::Add | How::Subtract => meet_fours(from, to, how),
    }
}

// Neighbours in fours, and what is left of the row one by one.
#[inline(always)]
fn meet_fours(from: &[u64], to: &mut [u64], how: How)
    requires same_length { length to.old ≡ length from.now }
    ensures value { to.new ≡ each_number (met how from.now 0 (1 ∷ [])) (length to.old ∷ []) to.old }
{
    let fours = to.len() / 4;
    for k in 0..fours {
        meet_four(from, 4 * k, to, how);
    }
    for i in 4 * fours..to.len() {
        to[i] = how.combine(to[i], from[i]);
    }
}

// All four are read before the first is written, so that the rows need not be compared for overlap.
#[inline(always)]
fn meet_four(from: &[u64], i: usize, to: &mut [u64], how: How)
    requires in_from { i + 4 ≤ length from.now }
    requires in_to { i + 4 ≤ length to.old }
    ensures value { to.new ≡ met_from how from.now 4 i to.old }
{
    let first = how.combine(to[i], from[i]);
    let second = how.combine(to[i + 1], from[i + 1]);
    let third = how.combine(to[i + 2], from[i + 2]);
    let fourth = how.combine(to[i + 3], from[i + 3]);
    to[i] = first;
    to[i + 1] = second;
    to[i + 2] = third;
    to[i + 3] = fourth;
}
