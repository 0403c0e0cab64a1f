//! How many elements the blocks of an array have together.

ghost use Rattle.std.specs.Prelude.{◌≡◌, ◌-◌, ◌^◌, map, min};
ghost use Rattle.index_spaces.specs.Elements as spec;
ghost use Rattle.sial_syntax.specs.Boxes.{volume};

use crate::spaces::Spaces;

impl Spaces {
    /// How many words all blocks over some indices have together, as far as a `u64` goes.
    #[tactic(auto, using(crate::proofs::ElementLemmas::elements_by_positions))]
    pub fn elements_over(&self, indices: &[u16]) -> u64
        ensures { result ≡ min (spec.elements_over self.now.spaces indices.now) (2 ^ 64 - 1) }
    {
        self.product(indices)
    }

    // The product of the positions of some indices, as far as a `u64` goes.
    #[tactic(auto, using(crate::proofs::BoundLemmas::min_product))]
    fn product(&self, indices: &[u16]) -> u64
        ensures { result ≡ min (volume (map (spec.positions_of self.now.spaces) indices.now)) (2 ^ 64 - 1) }
    {
        match indices {
            [] => 1,
            [index, others @ ..] => self.positions(*index).saturating_mul(self.product(others)),
        }
    }

    // How many positions an index has in all segments of its range.
    #[tactic(auto, using(crate::proofs::ElementLemmas::one_more))]
    fn positions(&self, index: u16) -> u64
        ensures { result ≡ spec.positions_of self.now.spaces index }
    {
        let kind = self.kind(index);
        let (first, count) = self.range(index);
        let mut positions = 0;
        for turn in 0..count {
            positions += self.len_of(kind, first + turn) as u64;
        }
        positions
    }
}
