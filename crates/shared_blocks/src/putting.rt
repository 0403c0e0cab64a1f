//! Words that are put into a block.

ghost use Rattle.std.specs.Prelude.{◌≡◌, ◌<◌, length};
ghost use Rattle.sial_meaning.specs.Own.{Own};
ghost use Rattle.sial_meaning.specs.Setting.{Setting};
ghost use Rattle.sial_meaning.specs.State.{Shared, accessed_words, blocks_of_class, shared_block, with_block};
ghost use Rattle.shared_blocks.specs.Standing.{SharedStand};

use crate::blocks::SharedBlocks;
use crate::meeting::meet;
use sial_syntax::{Access, Class};

impl SharedBlocks {
    /// Words meet those of a block: they are added, the greater stay, or they replace them; a read changes nothing.
    pub fn put(&mut self, class: Class, block: u32, how: Access, from: &[u64])
        requires within { block < length (blocks_of_class self.old class) }
        requires len { length from.now ≡ length (shared_block self.old class block) }
        ensures value { self.new ≡ with_block self.old class block (accessed_words how (shared_block self.old class block) from.now) }

        // They stand for each state that they stood for, after the same access.
        ensures stands { (g : Setting) (own : Own) (shared : Shared) → SharedStand g self.old own shared
            → SharedStand g self.new own (with_block shared class block (accessed_words how (shared_block shared class block) from.now)) }
    {
        self.meet_block(class, block, how, from);
    }

    // Words meet those of a block.
    fn meet_block(&mut self, class: Class, block: u32, how: Access, from: &[u64])
        requires within { block < length (blocks_of_class self.old class) }
        requires len { length from.now ≡ length (shared_block self.old class block) }
        ensures { self.new ≡ with_block self.old class block (accessed_words how (shared_block self.old class block) from.now) }
    {
        match class {
            Class::Distributed => meet(self.distributed.words_mut(block), how, from),
            Class::Served => meet(self.served.words_mut(block), how, from),
        }
    }
}
