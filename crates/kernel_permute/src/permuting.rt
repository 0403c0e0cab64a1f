//! Blocks copied with their dimensions in another order.

ghost use Rattle.std.specs.Prelude.{◌≡◌, ◌≤◌, length};
ghost use Rattle.kernel_permute.specs.Permuting.{IsOrder, permuted, picked};
ghost use Rattle.kernel_permute.specs.Positions.{product};

use crate::axis::Axis;
use crate::how::How;
use crate::strided::read;
use crate::strides::strides;

/// Copies a block with its dimensions in another order: dimension k of the target is dimension `order[k]` of the source.
///
///     to[p] = how(to[p], from[q])     where p[k] = q[order[k]] for each dimension k
///
/// `dims` are the source's lengths, in elements. Both blocks lie with their last dimension fastest, and are as long as
/// the product of their lengths. For `t(j,i) = s(i,j)` with 2 by 3 elements in `s`: `dims` is `[2, 3]`, `order` is
/// `[1, 0]`, and `t` has 3 by 2.
pub fn permute<const R: usize>(
    from: &[u64],
    dims: &[u32; R],
    order: &[u8; R],
    to: &mut [u64],
    how: How,
)
    requires rank { R ≤ 6 }
    requires order { IsOrder order.now }
    requires from_length { length from.now ≡ product dims.now }
    requires to_length { length to.old ≡ product (picked order.now dims.now) }
    ensures value { to.new ≡ permuted how dims.now order.now from.now to.old }
{
    if to.is_empty() {
        return;
    }
    let apart = strides(dims);
    let mut axes = [Axis { len: 1, stride: 1 }; R];
    for k in 0..R {
        let axis = order[k] as usize;
        axes[k] = Axis {
            len: dims[axis] as usize,
            stride: apart[axis],
        };
    }
    read(from, 0, &axes, to, how);
}
