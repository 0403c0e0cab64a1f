//! A cache's blocks in the order of their last use, and the awaited ones.

ghost use Rattle.std.specs.Prelude.{◌≡◌, ◌+◌, ◌<◌, ◌≤◌, true, false, length, IsTrue, IfSome, IfNone};
ghost use Rattle.std.specs.List.{list_all};
ghost use Rattle.arrayvec.specs.ArrayVec.{array_vec_len};
ghost use Rattle.sial_syntax.specs.Spaces.{same_class};
ghost use Rattle.block_cache.specs.Recency.{same_block, has_block, without, without_class, is_it, spares, found_in, empty_cache, after_touch, after_await, after_arrival, after_drop, IsLastFailing, Evicts};

use crate::found::Found;
use arrayvec::ArrayVec;
use sial_syntax::Class;
use std::marker::Model;

/// The cached blocks, most recently used first, and the awaited ones. No call takes memory.
#[derive(Drop)]
pub struct Cache {
    cached: ArrayVec<(Class, u32), 64>,
    awaited: ArrayVec<(Class, u32), 64>,
    places: u32,
}

impl Model for Cache {
    ghost use Rattle.block_cache.specs.Recency.{Recency, Fits};

    ghost Value = { Recency };

    ghost view = { λ c. record { cached = c.cached.items; awaited = c.awaited.items; places = c.places } };

    ghost invariant = { λ c. Fits c.cached.items c.awaited.items c.places };
}

impl Cache {
    /// Nothing is cached or awaited.
    pub fn new(places: u32) -> Cache
        requires least { 2 ≤ places }
        requires most { places ≤ 64 }
        ensures { result ≡ empty_cache places }
    {
        Cache {
            cached: ArrayVec::new(),
            awaited: ArrayVec::new(),
            places,
        }
    }

    /// Whether a block is cached, awaited or neither.
    pub fn find(&self, class: Class, block: u32) -> Found
        ensures { result ≡ found_in self.now (class, block) }
    {
        if holds(self.cached.as_slice(), (class, block)) {
            Found::Cached
        } else if holds(self.awaited.as_slice(), (class, block)) {
            Found::Awaited
        } else {
            Found::Absent
        }
    }

    /// Whether cached and awaited blocks together are as many as the places.
    pub fn is_full(&self) -> bool
        ensures full { result ≡ true → length self.now.cached + length self.now.awaited ≡ self.now.places }
        ensures room { result ≡ false → length self.now.cached + length self.now.awaited < self.now.places }
    {
        self.cached.len() + self.awaited.len() == self.places as usize
    }

    /// Uses a cached block: it goes to the front.
    #[tactic(auto, using(crate::proofs::RecencyLemmas::has_block_cached))]
    pub fn touch(&mut self, class: Class, block: u32)
        requires { found_in self.old (class, block) ≡ Found.Cached }
        ensures { self.new ≡ after_touch self.old (class, block) }
    {
        take_out(&mut self.cached, (class, block));
        self.cached.insert(0, (class, block));
    }

    /// Awaits a block that is neither cached nor awaited, where a place is left.
    pub fn await_block(&mut self, class: Class, block: u32)
        requires absent { found_in self.old (class, block) ≡ Found.Absent }
        requires room { length self.old.cached + length self.old.awaited < self.old.places }
        ensures { self.new ≡ after_await self.old (class, block) }
    {
        self.awaited.push((class, block));
    }

    /// An awaited block has come: it is cached, at the front.
    #[tactic(auto, using(crate::proofs::RecencyLemmas::has_block_awaited))]
    pub fn arrived(&mut self, class: Class, block: u32)
        requires { found_in self.old (class, block) ≡ Found.Awaited }
        ensures { self.new ≡ after_arrival self.old (class, block) }
    {
        take_out(&mut self.awaited, (class, block));
        self.cached.insert(0, (class, block));
    }

    /// Takes out the last cached block that is neither of two.
    pub fn evict_except(
        &mut self,
        first: Option<(Class, u32)>,
        second: Option<(Class, u32)>,
    ) -> Option<(Class, u32)>
        ensures evicted { IfSome result (Evicts self.old self.new first second) }
        ensures gone { IfSome result (λ block. found_in self.new block ≡ Found.Absent) }

        // None comes exactly where every cached block is one of the two.
        ensures none { IfNone result (IsTrue (list_all (spares first second) self.old.cached)) }
        ensures unchanged { IfNone result (self.new ≡ self.old) }
    {
        let place = last_other(self.cached.as_slice(), first, second)?;
        Some(self.cached.remove(place))
    }

    /// Takes out the cached blocks of a class.
    pub fn drop_class(&mut self, class: Class)
        ensures { self.new ≡ after_drop self.old class }
    {
        take_class_out(&mut self.cached, class);
    }
}

// The place of the last block that is neither of two.
fn last_other(
    blocks: &[(Class, u32)],
    first: Option<(Class, u32)>,
    second: Option<(Class, u32)>,
) -> Option<usize>
    ensures found { IfSome result (IsLastFailing (spares first second) blocks.now) }
    ensures none { IfNone result (IsTrue (list_all (spares first second) blocks.now)) }
{
    let mut last = None;
    for (place, block) in blocks.iter().enumerate() {
        if !is_it(first, *block) && !is_it(second, *block) {
            last = Some(place);
        }
    }
    last
}

// Whether a block is this one, if there is one.
fn is_it(one: Option<(Class, u32)>, block: (Class, u32)) -> bool
    ensures { result ≡ is_it one block }
{
    match one {
        Some(one) => is_same(one, block),
        None => false,
    }
}

// Whether two blocks are one.
fn is_same(one: (Class, u32), other: (Class, u32)) -> bool
    ensures { result ≡ same_block one other }
{
    one == other
}

// Whether a block is one of these.
fn holds(blocks: &[(Class, u32)], block: (Class, u32)) -> bool
    ensures { result ≡ has_block blocks.now block }
{
    blocks.iter().any(|other| is_same(block, *other))
}

// Takes a block out; the others keep their order.
fn take_out(blocks: &mut ArrayVec<(Class, u32), 64>, block: (Class, u32))
    ensures items { blocks.new.items ≡ without block blocks.old.items }
    ensures fewer { IsTrue (has_block blocks.old.items block) → array_vec_len blocks.new < array_vec_len blocks.old }
{
    blocks.retain(|other| !is_same(block, *other));
}

// Takes the blocks of a class out; the others keep their order.
fn take_class_out(blocks: &mut ArrayVec<(Class, u32), 64>, class: Class)
    ensures items { blocks.new.items ≡ without_class class blocks.old.items }
    ensures no_more { array_vec_len blocks.new ≤ array_vec_len blocks.old }
{
    blocks.retain(|block| !is_same_class(class, block.0));
}

// Whether two classes are one.
fn is_same_class(class: Class, other: Class) -> bool
    ensures { result ≡ same_class class other }
{
    class == other
}
