//! The pool: slots of words that leases name.
#![tactic(auto, using(crate::proofs::Laws::all))]

ghost use Rattle.std.specs.Prelude.{◌≡◌, ◌<◌, ℕ, List, false, length};
ghost use Rattle.std.specs.Borrow.{sem};
ghost use Rattle.block_pool.specs.Memory.{last_class, free_in, group_of, is_free, words_at, with_words, zeros_at};
ghost use Rattle.block_pool.specs.Changes.{Stands, StandsLifted, Changes, Writes, Takes, Lifts};

use crate::class::{CLASSES, LAST_CLASS};
use crate::lease::Owned;
use crate::lifted::Lifted;
use crate::rows::Rows;
use crate::slots::Slots;
use crate::state::State;
use std::marker::Model;

mod opening;
mod sending;
mod waiting;

/// Block memory, all taken at the opening: slots of words, each free or named by one lease.
#[derive(Drop)]
pub struct Pool {
    slots: Slots,
    rows: Rows,
    groups: [u32; CLASSES],
    buffer: Option<Vec<u64>>,
    widest: u32,
    most: usize,
}

impl Model for Pool {
    ghost use Rattle.block_pool.specs.Memory.{Memory};

    ghost Value = { Memory };

    ghost use Rattle.std.specs.Prelude.{is_none};
    ghost use Rattle.block_pool.specs.Sound.{IsSound};

    ghost view = { λ p. record { classes = p.slots.classes; states = p.slots.states; words = p.rows; groups = p.groups; is_lifted = is_none p.buffer; widest = p.widest; most = p.most } };

    ghost invariant = { λ p. IsSound p.slots p.rows p.buffer p.most };
}

impl Pool {
    ghost use Rattle.block_pool.specs.Lends.{lends_slot, refilled};

    /// How many slots that the last class names are free: in a pool of one width, how many are.
    pub fn free(&self) -> u32
        ensures { result ≡ free_in self.now last_class }
    {
        self.free_in(LAST_CLASS)
    }

    /// How many slots that a class names are free.
    pub fn free_in(&self, class: u32) -> u32
        ensures { result ≡ free_in self.now class }
    {
        self.slots.free(self.group_of(class))
    }

    // The class whose slots a class names.
    fn group_of(&self, class: u32) -> u32
        ensures { result ≡ group_of self.now.groups class }
    {
        self.groups
            .as_slice()
            .get(class as usize)
            .copied()
            .unwrap_or(CLASSES as u32)
    }

    /// Takes a slot that the last class names: in a pool of one width, any.
    pub fn take(&mut self) -> Owned
        requires { 0 < free_in self.old last_class }
        ensures { Takes last_class self.old self.new result State.Owned (zeros_at self.old result) }
    {
        self.take_in(LAST_CLASS)
    }

    /// Takes a slot that a class names.
    pub fn take_in(&mut self, class: u32) -> Owned
        requires { 0 < free_in self.old class }
        ensures { Takes class self.old self.new result State.Owned (zeros_at self.old result) }
    {
        Owned {
            slot: self.take_slot(class, State::Owned),
        }
    }

    fn take_slot(&mut self, class: u32, state: State) -> usize
        requires free { 0 < free_in self.old class }
        requires state { is_free state ≡ false }
        ensures { Takes class self.old self.new result state (zeros_at self.old result) }
    {
        let group = self.group_of(class);
        let slot = self.slots.take(group, state);
        self.rows.zero(slot);
        slot
    }

    /// Gives a slot back.
    pub fn give(&mut self, lease: Owned)
        requires { Stands self.old State.Owned lease }
        ensures { Writes self.old self.new lease State.Free (words_at self.old.words lease) }
    {
        let Owned { slot } = lease;
        self.slots.give(slot);
    }

    /// The words of a slot.
    pub fn words(&self, lease: &Owned) -> &[u64]
        requires { Stands self.now State.Owned lease.now }
        ensures { result.now ≡ words_at self.now.words lease.now }
    {
        self.rows.row(lease.slot)
    }

    /// The words of a slot, to be written.
    pub fn words_mut(&mut self, lease: &Owned) -> &mut [u64]
        requires { Stands self.old State.Owned lease.now }
        ensures* writes_back { sem 𝓛 (lends_slot self.entry lease.now result) }
        ensures value { result.now ≡ words_at self.old.words lease.now }

        // As many words as the slot has are its new ones, and no other slot changes.
        ensures same { (ws : List ℕ) → length ws ≡ length result.now → refilled self.old lease.now ws ≡ with_words self.old lease.now ws }
    {
        self.rows.row_mut(lease.slot)
    }

    /// Lifts a slot of the widest class: zeros apart from the pool, to be written while slots are read.
    pub fn lift(&mut self) -> Lifted
        requires free { 0 < free_in self.old self.old.widest }
        requires down { self.old.is_lifted ≡ false }
        ensures { Lifts self.old self.new result }
    {
        let group = self.group_of(self.widest);
        let slot = self.slots.take(group, State::Lifted);
        let mut words = self.buffer.take().unwrap();
        words.as_mut_slice().fill(0);
        Lifted { slot, words }
    }

    /// Gives a lifted slot back.
    pub fn lower(&mut self, lifted: Lifted)
        requires { StandsLifted self.old lifted }
        ensures changes { Changes self.old self.new lifted.slot State.Free (words_at self.old.words lifted.slot) }
        ensures down { self.new.is_lifted ≡ false }
    {
        let Lifted { slot, words } = lifted;
        self.slots.give(slot);
        self.buffer = Some(words);
    }
}
