//! A lifted slot, whose words are a value apart from the pool.

ghost use Rattle.std.specs.Prelude.{◌≡◌};
ghost use Rattle.std.specs.Borrow.{sem};

use std::marker::Model;

/// A slot of the widest class, with words of its own while it is lifted.
pub struct Lifted {
    pub(crate) slot: usize,
    pub(crate) words: Vec<u64>,
}

impl Model for Lifted {
    ghost use Rattle.block_pool.specs.Memory.{Apart};

    ghost Value = { Apart };

    ghost view = { λ l. record { slot = l.slot; words = l.words.items } };
}

impl Lifted {
    ghost use Rattle.block_pool.specs.LendsLifted.{lends_lifted};

    /// The words.
    pub fn words(&self) -> &[u64]
        ensures { result.now ≡ self.now.words }
    {
        self.words.as_slice()
    }

    /// The words, to be written.
    pub fn words_mut(&mut self) -> &mut [u64]
        ensures* writes_back { sem 𝓛 (lends_lifted self.entry result) }
        ensures value { result.now ≡ self.old.words }
    {
        self.words.as_mut_slice()
    }
}
