//! Slots that wait for a block, and the blocks that came.

ghost use Rattle.std.specs.Prelude.{◌≡◌, ◌≤◌, length, take};
ghost use Rattle.block_pool.specs.Memory.{words_at, with_front};
ghost use Rattle.block_pool.specs.Changes.{Stands, Writes};

use crate::lease::{Awaiting, Cached, Owned};
use crate::pool::Pool;
use crate::state::State;

impl Pool {
    /// Lets a slot wait for the words of a block.
    pub fn expect(&mut self, lease: Owned) -> Awaiting
        requires { Stands self.old State.Owned lease }
        ensures lease { result ≡ lease }
        ensures after { Writes self.old self.new lease State.Awaiting (words_at self.old.words lease) }
    {
        let Owned { slot } = lease;
        self.slots.set(slot, State::Awaiting);
        Awaiting { slot }
    }

    /// Puts words into the front of a slot that waits for them.
    pub fn fill(&mut self, lease: &Awaiting, from: &[u64])
        requires stands { Stands self.old State.Awaiting lease.now }
        requires fits { length from.now ≤ length (words_at self.old.words lease.now) }
        ensures { Writes self.old self.new lease.now State.Awaiting (with_front (words_at self.old.words lease.now) from.now) }
    {
        self.rows.write_front(lease.slot, from);
    }

    /// Ends the wait: the block is there.
    pub fn arrive(&mut self, lease: Awaiting) -> Cached
        requires { Stands self.old State.Awaiting lease }
        ensures lease { result ≡ lease }
        ensures after { Writes self.old self.new lease State.Cached (words_at self.old.words lease) }
    {
        let Awaiting { slot } = lease;
        self.slots.set(slot, State::Cached);
        Cached { slot }
    }

    /// The words of a cached block.
    pub fn cached(&self, lease: &Cached) -> &[u64]
        requires { Stands self.now State.Cached lease.now }
        ensures { result.now ≡ words_at self.now.words lease.now }
    {
        self.rows.row(lease.slot)
    }

    /// Gives the slot of a cached block back.
    pub fn drop_cached(&mut self, lease: Cached)
        requires { Stands self.old State.Cached lease }
        ensures { Writes self.old self.new lease State.Free (words_at self.old.words lease) }
    {
        let Cached { slot } = lease;
        self.slots.give(slot);
    }

    /// Copies a block into a slot of this pool that waits for it.
    pub fn copy_within(&mut self, lease: &Owned, into: &Awaiting)
        requires lease { Stands self.old State.Owned lease.now }
        requires into { Stands self.old State.Awaiting into.now }
        requires wide { length (words_at self.old.words lease.now) ≡ length (words_at self.old.words into.now) }
        ensures { Writes self.old self.new into.now State.Awaiting (words_at self.old.words lease.now) }
    {
        let len = self.words(lease).len();
        self.rows.copy_front(lease.slot, into.slot, len);
    }

    /// Copies the front of a block into a slot of this pool that waits for it.
    pub fn copy_front_within(&mut self, lease: &Owned, into: &Awaiting, len: u32)
        requires lease { Stands self.old State.Owned lease.now }
        requires into { Stands self.old State.Awaiting into.now }
        requires from_len { len ≤ length (words_at self.old.words lease.now) }
        requires into_len { len ≤ length (words_at self.old.words into.now) }
        ensures { Writes self.old self.new into.now State.Awaiting (with_front (words_at self.old.words into.now) (take len (words_at self.old.words lease.now))) }
    {
        self.rows.copy_front(lease.slot, into.slot, len as usize);
    }
}
