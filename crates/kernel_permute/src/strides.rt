//! How far apart neighbours lie in each dimension of a block.

ghost use Rattle.std.specs.Prelude.{◌≡◌, ◌<◌, ◌^◌};
ghost use Rattle.kernel_permute.specs.Positions.{product, strides_of};

/// The product of the later dimensions, for each dimension.
pub fn strides<const R: usize>(dims: &[u32; R]) -> [usize; R]
    requires some { 0 < product dims.now }
    requires fits { product dims.now < 2 ^ 64 }
    ensures value { result ≡ strides_of dims.now }
{
    let mut strides = [1; R];
    let mut width = 1;
    for k in (0..R).rev() {
        strides[k] = width;
        width *= dims[k] as usize;
    }
    strides
}
