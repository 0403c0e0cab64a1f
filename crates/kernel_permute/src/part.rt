//! Parts of a block, dimension by dimension.

ghost use Rattle.std.specs.Prelude.{◌≡◌, ◌≤◌, ◌<◌, ◌*◌, ◌/◌};
ghost use Rattle.kernel_permute.specs.Parts.{dims_of, sizes, starts};
ghost use Rattle.kernel_permute.specs.Positions.{product};
ghost use Rattle.kernel_permute.specs.Slicing.{IsPart};

/// Where the part begins in the dimension, how far it goes, and how long the block is there.
#[derive(Clone, Copy, Debug)]
pub struct Part {
    pub at: usize,
    pub size: usize,
    pub dim: usize,
}

/// The part of this size that begins there, in a block with these dimensions.
#[inline(always)]
pub fn parts_of<const R: usize>(at: &[u32; R], size: &[u32; R], dims: &[u32; R]) -> [Part; R]
    requires rank { R ≤ 6 }
    requires part { IsPart at.now size.now dims.now }
    ensures starts { starts result ≡ at.now }
    ensures sizes { sizes result ≡ size.now }
    ensures dims { dims_of result ≡ dims.now }
{
    let mut parts = [Part {
        at: 0,
        size: 0,
        dim: 0,
    }; R];
    for k in 0..R {
        parts[k] = Part {
            at: at[k] as usize,
            size: size[k] as usize,
            dim: dims[k] as usize,
        };
    }
    parts
}

/// How many numbers of the part lie in each of so many rows.
///
/// Where a row has few dimensions this takes no division, which would cost as much as a short row.
#[inline(always)]
pub fn row_size(count: usize, rest: &[Part], numbers: usize) -> usize
    requires numbers { numbers ≡ count * product (sizes rest.now) }
    requires some { 0 < numbers }
    ensures { result ≡ numbers / count }
{
    match rest {
        [row] => row.size,
        [rows, row] => rows.size * row.size,
        _ => numbers / count,
    }
}

/// How many numbers of the block lie in each of so many rows.
#[inline(always)]
pub fn row_width(count: usize, rest: &[Part], numbers: usize) -> usize
    requires numbers { numbers ≡ count * product (dims_of rest.now) }
    requires some { 0 < numbers }
    ensures { result ≡ numbers / count }
{
    match rest {
        [row] => row.dim,
        [rows, row] => rows.dim * row.dim,
        _ => numbers / count,
    }
}
