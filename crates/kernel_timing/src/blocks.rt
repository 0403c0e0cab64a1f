//! Blocks to compute with, and the checksum of one.

ghost use Rattle.std.specs.Prelude.{◌≡◌, length, IfOk};

use std::alloc::AllocError;

/// A block of numbers of all sizes, another one for each seed.
pub fn numbers(rt: &HostRuntime, count: usize, seed: u64) -> Result<Vec<u64>, AllocError>
    ensures { IfOk result (λ block. length block.items ≡ count) }
{
    let mut block = vec![in rt.alloc(); 0u64; count]?;
    let mut next = seed;
    for number in block.iter_mut() {
        next = next
            .wrapping_mul(6364136223846793005)
            .wrapping_add(1442695040888963407);
        *number = next;
    }
    Ok(block)
}

/// A number that depends on each number of the block and on its place.
pub fn checksum(block: &[u64]) -> u64 {
    let mut sum = 0u64;
    for number in block {
        sum = sum.wrapping_mul(31).wrapping_add(*number);
    }
    sum
}
