//! The blocks of arrays: their numbers, and how many words they have.

ghost use Rattle.std.specs.Prelude.{◌≡◌, ◌-◌, ◌^◌, ◌<◌, length, min, false};
ghost use Rattle.sial_syntax.specs.BoxLaws.{AreSegments};
ghost use Rattle.sial_syntax.specs.Spaces as sp;
ghost use Rattle.index_spaces.specs.Placed.{AreIn, array_among, is_temp};

use crate::spaces::Spaces;

impl Spaces {
    /// The number of a block within its array, which isn't temp, counted from 0.
    pub fn block_number(&self, array: u16, tuple: &[u32]) -> u32
        requires declared { array < length self.now.arrays }
        requires counted { is_temp (array_among self.now.arrays array) ≡ false }
        requires within { AreSegments self.now.spaces (array_among self.now.arrays array).dims tuple.now }
        ensures { result ≡ sp.rank_of self.now.spaces (array_among self.now.arrays array).dims tuple.now }
    {
        let count = self.blocks_of(array) as u64;
        let rank = self.rank_of(self.dims(array), tuple);
        prove!(rank < count);
        rank as u32
    }

    /// How many words a block has, as far as a `u32` goes.
    pub fn block_words(&self, array: u16, tuple: &[u32]) -> u32
        requires { AreIn self.now.spaces (array_among self.now.arrays array).dims tuple.now }
        ensures { result ≡ min (sp.words_in self.now.spaces (array_among self.now.arrays array).dims tuple.now) (2 ^ 32 - 1) }
    {
        self.words(self.dims(array), tuple)
    }

    // How many words the block of these segments has, as far as a `u32` goes.
    #[tactic(auto, using(crate::proofs::BoundLemmas::min_product))]
    fn words(&self, indices: &[u16], tuple: &[u32]) -> u32
        requires { AreIn self.now.spaces indices.now tuple.now }
        ensures { result ≡ min (sp.words_in self.now.spaces indices.now tuple.now) (2 ^ 32 - 1) }
    {
        match indices {
            [] => 1,
            [index, indices @ ..] => match tuple {
                [] => 1,
                [number, numbers @ ..] => {
                    let (_, len) = self.segment(*index, *number);
                    len.saturating_mul(self.words(indices, numbers))
                }
            },
        }
    }
}
