//! Numbers read from places that are named one by one.

ghost use Rattle.std.specs.Prelude.{◌≡◌, length};
ghost use Rattle.kernel_permute.specs.Gathering.{AreWithin, gathered};

/// Fills the target with the source's numbers at the places, in the order of the places.
pub fn gather(from: &[u64], places: &[u32], to: &mut [u64])
    requires same_length { length to.old ≡ length places.now }
    requires within { AreWithin from.now places.now }
    ensures value { to.new ≡ gathered from.now places.now }
{
    for (k, number) in to.iter_mut().enumerate() {
        *number = from[places[k] as usize];
    }
}
