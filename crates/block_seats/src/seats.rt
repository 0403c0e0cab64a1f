//! Places for blocks.

ghost use Rattle.std.specs.Prelude.{◌≡◌, ◌<◌, [], IfNone, IfOk, is_some, length};
ghost use Rattle.std.specs.Option.{ForSome, unwrap_or};
ghost use Rattle.block_pool.specs.Changes.{Stands, Writes};
ghost use Rattle.block_pool.specs.Memory.{words_at};
ghost use Rattle.block_pool.specs.Standing.{lease_at};
ghost use Rattle.block_seats.specs.Leaving.{Leaves};
ghost use Rattle.block_seats.specs.Seated.{SeatsStand, block_at, empty};

use block_pool::{Owned, Pool, State};
use std::alloc::{AllocError, Global};
use std::marker::Model;

/// Places, at each a block in a slot of a pool or none. What takes slots gives them back by `close`.
pub struct Seats {
    pub(crate) leases: Vec<Option<Owned>>,
    pub(crate) lens: Vec<usize>,
}

impl Model for Seats {
    ghost use Rattle.std.specs.Prelude.{◌≡◌, length};
    ghost use Rattle.block_seats.specs.Seated.{Seated};

    ghost Value = { Seated };

    ghost view = { λ s. record { slots = s.leases.items; lens = s.lens.items } };

    ghost invariant = { λ s. length s.lens.items ≡ length s.leases.items };
}

impl Seats {
    /// So many places without a block.
    pub fn open(alloc: Global, places: usize) -> Result<Seats, AllocError>
        ensures { IfOk result (λ s. s ≡ empty places) }
    {
        let lens = vec![in alloc; 0; places]?;
        let mut leases = Vec::with_capacity(alloc, places)?;
        for _turn in 0..places {
            leases.push_reserved(None);
        }
        Ok(Seats { leases, lens })
    }

    /// How many places there are.
    pub fn len(&self) -> usize
        ensures { result ≡ length self.now.slots }
    {
        self.leases.len()
    }

    /// Whether a block is at a place.
    pub fn is_held(&self, place: usize) -> bool
        requires { place < length self.now.slots }
        ensures { result ≡ is_some (lease_at self.now.slots place) }
    {
        self.leases[place].is_some()
    }

    /// The words of the block at a place, an empty slice where no block is.
    pub fn words<'a>(&self, pool: &'a Pool, place: usize) -> &'a [u64]
        requires stands { SeatsStand pool.now self.now }
        requires at { place < length self.now.slots }
        ensures { result.now ≡ unwrap_or (block_at pool.now self.now place) [] }
    {
        match &self.leases[place] {
            Some(lease) => &pool.words(lease)[..self.lens[place]],
            None => &[],
        }
    }

    /// Gives all slots back.
    pub fn close(self, pool: &mut Pool)
        requires { SeatsStand pool.old self }
        ensures { Leaves pool.old pool.new self.slots [] }
    {
        let Seats { leases, lens: _ } = self;
        let mut leases = leases;
        while let Some(place) = leases.pop() {
            give_back(pool, place);
        }
        leases.destroy_empty();
    }
}

// Gives a slot back, if there is one.
fn give_back(pool: &mut Pool, place: Option<Owned>)
    requires { ForSome place (Stands pool.old State.Owned) }
    ensures some { ForSome place (λ slot. Writes pool.old pool.new slot State.Free (words_at pool.old.words slot)) }
    ensures none { IfNone place (pool.new ≡ pool.old) }
{
    if let Some(lease) = place {
        pool.give(lease);
    }
}
