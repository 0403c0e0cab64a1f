//! What two blocks of one length give as one number or one answer.

ghost use Rattle.std.specs.Prelude.{◌≡◌, ◌↔◌, IsTrue, length};
ghost use Rattle.block_math.specs.Elements.{dot_of};

/// The sum of the products of the elements at all places, modulo 2^64.
pub fn dot(a: &[u64], b: &[u64]) -> u64
    requires same_length { length a.now ≡ length b.now }
    ensures value { result ≡ dot_of a.now b.now }
{
    let mut total: u64 = 0;
    for (place, number) in a.iter().enumerate() {
        total = total.wrapping_add(number.wrapping_mul(b[place]));
    }
    total
}

/// Whether the two blocks hold the same numbers in the same order.
pub fn all_equal(a: &[u64], b: &[u64]) -> bool
    requires same_length { length a.now ≡ length b.now }
    ensures value { IsTrue result ↔ (a.now ≡ b.now) }
{
    a == b
}
