//! The numbers of indices, and those of blocks within their arrays.

ghost use Rattle.std.specs.Prelude.{◌≡◌, length, slice_index_or};
ghost use Rattle.index_spaces.specs.Placed.{array_among};
ghost use Rattle.sial_syntax.specs.Spaces as sp;
ghost use Rattle.exec_names.specs.Naming.{numbers_of, IsAmong};

use index_spaces::Spaces;

/// How many dimensions a block has at most.
pub const MOST_DIMS: usize = 6;

/// The number that an index has, 0 where it isn't bound.
pub fn value_of(values: &[u32], index: u16) -> u32
    ensures { result ≡ slice_index_or values.now index 0 }
{
    values.get(index as usize).copied().unwrap_or(0)
}

// Writes the number that each index has.
fn write_numbers(values: &[u32], at: &[u16], into: &mut [u32])
    requires { length into.old ≡ length at.now }
    ensures { into.new ≡ numbers_of values.now at.now }
{
    for k in 0..at.len() {
        into[k] = value_of(values, at[k]);
    }
}

/// The number of a named block within its array, which isn't temp, counted from 0.
pub fn block_number(spaces: &Spaces, values: &[u32], array: u16, at: &[u16]) -> u32
    requires { IsAmong spaces.now.spaces spaces.now.arrays values.now array at.now }
    ensures { result ≡ sp.rank_of spaces.now.spaces (array_among spaces.now.arrays array).dims (numbers_of values.now at.now) }
{
    let mut numbers = [0; MOST_DIMS];
    let tuple = &mut numbers[..at.len()];
    write_numbers(values, at, tuple);
    spaces.block_number(array, tuple)
}
