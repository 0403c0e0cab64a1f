//! Blocks of numbers that are all different, and what a block comes to in one number.

ghost use Rattle.std.specs.Prelude.{◌≡◌, IfOk, length};

use kernel_permute::How;
use std::alloc::{AllocError, Global};

/// All ways in which a target takes a number.
pub const HOWS: [How; 3] = [How::Set, How::Add, How::Subtract];

/// So many numbers that are all different.
pub fn numbers(alloc: Global, count: usize, step: u64, first: u64) -> Result<Vec<u64>, AllocError>
    ensures { IfOk result (λ block. length block.items ≡ count) }
{
    let mut numbers = vec![in alloc; 0u64; count]?;
    let mut next = first;
    for number in numbers.iter_mut() {
        *number = next;
        next = next.wrapping_add(step);
    }
    Ok(numbers)
}

/// A number in which each place of the block counts.
pub fn digest(block: &[u64]) -> u64 {
    let mut digest = 0u64;
    for number in block {
        digest = digest
            .wrapping_mul(6364136223846793005)
            .wrapping_add(*number);
    }
    digest
}
