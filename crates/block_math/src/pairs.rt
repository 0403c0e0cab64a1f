//! Two blocks of one length, the second taken into the first.

ghost use Rattle.std.specs.Prelude.{◌≡◌, length};
ghost use Rattle.block_math.specs.Elements.{differences, greater, sums};

/// Adds the other block's elements, modulo 2^64.
pub fn add(to: &mut [u64], from: &[u64])
    requires same_length { length to.old ≡ length from.now }
    ensures value { to.new ≡ sums to.old from.now }
{
    for (place, number) in to.iter_mut().enumerate() {
        *number = number.wrapping_add(from[place]);
    }
}

/// Takes the other block's elements away, modulo 2^64.
pub fn subtract(to: &mut [u64], from: &[u64])
    requires same_length { length to.old ≡ length from.now }
    ensures value { to.new ≡ differences to.old from.now }
{
    for (place, number) in to.iter_mut().enumerate() {
        *number = number.wrapping_sub(from[place]);
    }
}

/// Leaves the greater of the two numbers at each place.
pub fn greatest(to: &mut [u64], from: &[u64])
    requires same_length { length to.old ≡ length from.now }
    ensures value { to.new ≡ greater to.old from.now }
{
    for (place, number) in to.iter_mut().enumerate() {
        *number = (*number).max(from[place]);
    }
}
