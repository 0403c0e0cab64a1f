//! The blocks of all shared arrays.

ghost use Rattle.std.specs.Prelude.{◌≡◌, ◌+◌, ◌<◌, ℕ, length};
ghost use Rattle.sial_meaning.specs.Own.{Own};
ghost use Rattle.sial_meaning.specs.Setting.{Setting, first_of_class};
ghost use Rattle.sial_meaning.specs.State.{Shared, blocks_of_class, shared_block};
ghost use Rattle.shared_blocks.specs.Standing.{IsThere, SharedStand};

use block_store::MemoryStore;
use sial_syntax::Class;
use std::marker::Model;

/// The blocks of all distributed and served arrays, those of arrays that aren't created too.
#[derive(Drop)]
pub struct SharedBlocks {
    pub(crate) distributed: MemoryStore,
    pub(crate) served: MemoryStore,
}

impl Model for SharedBlocks {
    ghost use Rattle.sial_meaning.specs.State.{Shared};

    ghost Value = { Shared };

    ghost view = { λ b. record { distributed = b.distributed; served = b.served } };
}

impl SharedBlocks {
    /// The words of a block, by its number among the blocks of its class.
    pub fn words(&self, class: Class, block: u32) -> &[u64]
        requires { block < length (blocks_of_class self.now class) }
        ensures value { result.now ≡ shared_block self.now class block }

        // A block of an array that is there has the words that it has in each state that the blocks stand for.
        ensures stands { (g : Setting) (own : Own) (shared : Shared) (array number : ℕ)
            → SharedStand g self.now own shared → IsThere g own class array number
            → block ≡ first_of_class g array + number → result.now ≡ shared_block shared class block }
    {
        match class {
            Class::Distributed => self.distributed.words(block),
            Class::Served => self.served.words(block),
        }
    }
}
