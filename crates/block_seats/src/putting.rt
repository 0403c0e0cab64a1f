//! Blocks put down at places, and taken away.
#![tactic(auto, using(crate::proofs::Laws::all))]

ghost use Rattle.std.specs.Prelude.{◌≡◌, ◌<◌, ◌≤◌, Some, None, true, is_some, length, replicate};
ghost use Rattle.block_pool.specs.Changes.{Stands, Writes};
ghost use Rattle.block_pool.specs.Memory.{free_in, last_class, with_front, words_at};
ghost use Rattle.block_pool.specs.Standing.{lease_at};
ghost use Rattle.block_seats.specs.Putting.{Puts};
ghost use Rattle.block_seats.specs.Seated.{IsWide, SeatsStand};

use crate::seats::Seats;
use block_pool::{Owned, Pool, State};
use std::mem::replace;

impl Seats {
    /// Puts a block down at a place, in the slot that is there or in one that is taken.
    pub fn put(&mut self, pool: &mut Pool, place: usize, words: &[u64])
        requires stands { SeatsStand pool.old self.old }
        requires at { place < length self.old.slots }
        requires wide { IsWide pool.old (length words.now) }
        requires room { lease_at self.old.slots place ≡ None → 0 < free_in pool.old last_class }
        ensures { Puts pool.old pool.new self.old self.new place (Some words.now) }
    {
        if self.is_held(place) {
            self.write(pool, place, words);
        } else {
            self.take(pool, place, words.len());
            self.write(pool, place, words);
        }
    }

    /// Puts a block of so many zeros down at a place, whether a block is there or not.
    pub fn put_zeros(&mut self, pool: &mut Pool, place: usize, len: usize)
        requires stands { SeatsStand pool.old self.old }
        requires at { place < length self.old.slots }
        requires wide { IsWide pool.old len }
        requires room { lease_at self.old.slots place ≡ None → 0 < free_in pool.old last_class }
        ensures { Puts pool.old pool.new self.old self.new place (Some (replicate len 0)) }
    {
        self.clear(pool, place);
        self.take(pool, place, len);
    }

    /// Takes a slot for a block of so many zeros at a place without one.
    pub fn take(&mut self, pool: &mut Pool, place: usize, len: usize)
        requires stands { SeatsStand pool.old self.old }
        requires at { place < length self.old.slots }
        requires empty { lease_at self.old.slots place ≡ None }
        requires wide { IsWide pool.old len }
        requires room { 0 < free_in pool.old last_class }
        ensures { Puts pool.old pool.new self.old self.new place (Some (replicate len 0)) }
    {
        let lease = pool.take();
        self.lens[place] = len;
        match replace(&mut self.leases[place], Some(lease)) {
            Some(old) => pool.give(old),
            None => {}
        }
    }

    // Other words for the block at a place.
    fn write(&mut self, pool: &mut Pool, place: usize, words: &[u64])
        requires stands { SeatsStand pool.old self.old }
        requires at { place < length self.old.slots }
        requires held { is_some (lease_at self.old.slots place) ≡ true }
        requires wide { IsWide pool.old (length words.now) }
        ensures { Puts pool.old pool.new self.old self.new place (Some words.now) }
    {
        self.lens[place] = words.len();
        match &self.leases[place] {
            Some(lease) => write_slot(pool, lease, words),
            None => {}
        }
    }

    /// Takes the block at a place away, if one is there, and gives its slot back.
    pub fn clear(&mut self, pool: &mut Pool, place: usize)
        requires stands { SeatsStand pool.old self.old }
        requires at { place < length self.old.slots }
        ensures { Puts pool.old pool.new self.old self.new place None }
    {
        match self.leases[place].take() {
            Some(lease) => pool.give(lease),
            None => {}
        }
    }
}

// Words at the front of a slot.
fn write_slot(pool: &mut Pool, lease: &Owned, words: &[u64])
    requires stands { Stands pool.old State.Owned lease.now }
    requires fits { length words.now ≤ length (words_at pool.old.words lease.now) }
    ensures { Writes pool.old pool.new lease.now State.Owned (with_front (words_at pool.old.words lease.now) words.now) }
{
    write_front(pool.words_mut(lease), words);
}

// Words replace the front of others.
fn write_front(to: &mut [u64], from: &[u64])
    requires { length from.now ≤ length to.old }
    ensures { to.new ≡ with_front to.old from.now }
{
    let (front, _) = to.split_at_mut(from.len());
    front.copy_from_slice(from);
}
