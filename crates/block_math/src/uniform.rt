//! One number that meets every element of a block.

ghost use Rattle.std.specs.Prelude.{◌≡◌, length, replicate};
ghost use Rattle.block_math.specs.Elements.{scaled};

/// Writes one value into each element.
pub fn fill(to: &mut [u64], value: u64)
    ensures value { to.new ≡ replicate (length to.old) value }
{
    for number in to.iter_mut() {
        *number = value;
    }
}

/// Multiplies each element by the factor, modulo 2^64.
pub fn scale(to: &mut [u64], factor: u64)
    ensures value { to.new ≡ scaled factor to.old }
{
    for number in to.iter_mut() {
        *number = number.wrapping_mul(factor);
    }
}
