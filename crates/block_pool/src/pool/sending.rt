//! Copies of blocks on their way, and what they do where they arrive.

ghost use Rattle.std.specs.Prelude.{◌≡◌, ◌<◌, ◌≤◌, length, take};
ghost use Rattle.block_pool.specs.Memory.{last_class, free_in, words_at, zeros_at, with_front};
ghost use Rattle.block_pool.specs.Changes.{Stands, Writes, Takes, AreWide, HasWidth};
ghost use Rattle.block_pool.specs.Mixed.{mixed};

use crate::class::LAST_CLASS;
use crate::how::How;
use crate::lease::{Owned, Sending};
use crate::pool::Pool;
use crate::state::State;

impl Pool {
    /// Takes a slot that the last class names for a copy of a block on its way.
    pub fn send_copy(&mut self, from: &Owned) -> Sending
        requires from { Stands self.old State.Owned from.now }
        requires free { 0 < free_in self.old last_class }
        requires wide { HasWidth self.old last_class (length (words_at self.old.words from.now)) }
        ensures { Takes last_class self.old self.new result State.Sending (words_at self.old.words from.now) }
    {
        let len = self.words(from).len();
        let slot = self.take_slot(LAST_CLASS, State::Sending);
        self.rows.copy_front(from.slot, slot, len);
        Sending { slot }
    }

    /// Takes a slot for a copy of the front of a block on its way; zeros follow.
    pub fn send_in(&mut self, from: &Owned, class: u32, len: u32) -> Sending
        requires from { Stands self.old State.Owned from.now }
        requires free { 0 < free_in self.old class }
        requires from_len { len ≤ length (words_at self.old.words from.now) }
        requires fits { AreWide self.old class len }
        ensures { Takes class self.old self.new result State.Sending (with_front (zeros_at self.old result) (take len (words_at self.old.words from.now))) }
    {
        let slot = self.take_slot(class, State::Sending);
        self.rows.copy_front(from.slot, slot, len as usize);
        Sending { slot }
    }

    /// The words of a block on its way.
    pub fn sending(&self, lease: &Sending) -> &[u64]
        requires { Stands self.now State.Sending lease.now }
        ensures { result.now ≡ words_at self.now.words lease.now }
    {
        self.rows.row(lease.slot)
    }

    /// Gives the slot of a block on its way back.
    pub fn sent(&mut self, lease: Sending)
        requires { Stands self.old State.Sending lease }
        ensures { Writes self.old self.new lease State.Free (words_at self.old.words lease) }
    {
        let Sending { slot } = lease;
        self.slots.give(slot);
    }

    /// Replaces the first numbers of a block by those of one on its way.
    pub fn set_within(&mut self, from: &Sending, into: &Owned, len: u32)
        requires from { Stands self.old State.Sending from.now }
        requires into { Stands self.old State.Owned into.now }
        requires from_len { len ≤ length (words_at self.old.words from.now) }
        requires into_len { len ≤ length (words_at self.old.words into.now) }
        ensures { Writes self.old self.new into.now State.Owned (mixed How.Set len (words_at self.old.words into.now) (words_at self.old.words from.now)) }
    {
        self.rows.mix(from.slot, into.slot, len as usize, How::Set);
    }

    /// Adds the first numbers of a block on its way to those of another.
    pub fn add_within(&mut self, from: &Sending, into: &Owned, len: u32)
        requires from { Stands self.old State.Sending from.now }
        requires into { Stands self.old State.Owned into.now }
        requires from_len { len ≤ length (words_at self.old.words from.now) }
        requires into_len { len ≤ length (words_at self.old.words into.now) }
        ensures { Writes self.old self.new into.now State.Owned (mixed How.Add len (words_at self.old.words into.now) (words_at self.old.words from.now)) }
    {
        self.rows.mix(from.slot, into.slot, len as usize, How::Add);
    }

    /// Leaves the greater of two numbers at each of the first places of a block.
    pub fn greatest_within(&mut self, from: &Sending, into: &Owned, len: u32)
        requires from { Stands self.old State.Sending from.now }
        requires into { Stands self.old State.Owned into.now }
        requires from_len { len ≤ length (words_at self.old.words from.now) }
        requires into_len { len ≤ length (words_at self.old.words into.now) }
        ensures { Writes self.old self.new into.now State.Owned (mixed How.Greatest len (words_at self.old.words into.now) (words_at self.old.words from.now)) }
    {
        self.rows
            .mix(from.slot, into.slot, len as usize, How::Greatest);
    }
}
