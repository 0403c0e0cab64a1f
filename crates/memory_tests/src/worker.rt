//! A worker and a home with leases in one pool, as a caller keeps them.

ghost use Rattle.std.specs.Prelude.{◌≡◌, ◌<◌, ◌≤◌, ℕ, List, Option, [], ◌∷◌, length, IfNone};
ghost use Rattle.std.specs.Option.{ForSome};
ghost use Rattle.block_pool.specs.Memory.{Memory, words_at};
ghost use Rattle.block_pool.specs.Changes.{Stands, Writes, HasWidth};
ghost use Rattle.block_pool.specs.Mixed.{mixed};
ghost use Rattle.block_pool.specs.Standing.{Holds, StandsIn, NoShared, Frames, FramesAll};

use block_pool::{Cached, How, Owned, Pool, Sending, State};
use std::mem::replace;

/// A worker's leases: blocks by place, a cached block and one on its way.
pub struct Worker {
    pub blocks: [Option<Owned>; 2],
    cached: Option<Cached>,
    put: Option<Sending>,
}

impl Worker {
    pub fn new() -> Worker
        ensures stands { (p : Memory) → StandsIn p result.blocks [] (result.cached ∷ []) (result.put ∷ []) }
        ensures apart { (others : List (Option ℕ)) → NoShared result.blocks others }
    {
        Worker {
            blocks: [None, None],
            cached: None,
            put: None,
        }
    }

    // Takes a slot of zeros for an empty place, where one is free.
    pub fn take(&mut self, pool: &mut Pool, class: u32, at: usize)
        requires stands { StandsIn pool.old self.old.blocks [] (self.old.cached ∷ []) (self.old.put ∷ []) }
        requires at { at < 2 }
        ensures stands { StandsIn pool.new self.new.blocks [] (self.new.cached ∷ []) (self.new.put ∷ []) }
        ensures frame { Frames pool.old pool.new self.old.blocks self.new.blocks }
        ensures wide { (class width : ℕ) → HasWidth pool.old class width → HasWidth pool.new class width }
    {
        take_at(pool, class, &mut self.blocks, at);
    }

    // Gives the slot at a place back.
    pub fn give(&mut self, pool: &mut Pool, at: usize)
        requires stands { StandsIn pool.old self.old.blocks [] (self.old.cached ∷ []) (self.old.put ∷ []) }
        requires at { at < 2 }
        ensures stands { StandsIn pool.new self.new.blocks [] (self.new.cached ∷ []) (self.new.put ∷ []) }
        ensures frame { Frames pool.old pool.new self.old.blocks self.new.blocks }
    {
        if let Some(lease) = self.blocks[at].take() {
            pool.give(lease);
        }
    }

    // Fills the block at a place with one word.
    pub fn write(&self, pool: &mut Pool, at: usize, word: u64)
        requires stands { StandsIn pool.old self.now.blocks [] (self.now.cached ∷ []) (self.now.put ∷ []) }
        requires at { at < 2 }
        ensures stands { StandsIn pool.new self.now.blocks [] (self.now.cached ∷ []) (self.now.put ∷ []) }
        ensures frame { Frames pool.old pool.new self.now.blocks self.now.blocks }
        ensures wide { (class width : ℕ) → HasWidth pool.old class width → HasWidth pool.new class width }
    {
        if let Some(lease) = &self.blocks[at] {
            pool.words_mut(lease).fill(word);
        }
    }

    // A block that was asked for comes, where a slot is free and none is cached.
    pub fn ask(&mut self, pool: &mut Pool, class: u32, from: &[u64])
        requires stands { StandsIn pool.old self.old.blocks [] (self.old.cached ∷ []) (self.old.put ∷ []) }
        ensures stands { StandsIn pool.new self.new.blocks [] (self.new.cached ∷ []) (self.new.put ∷ []) }
        ensures frame { Frames pool.old pool.new self.old.blocks self.new.blocks }
    {
        if pool.free_in(class) > 0 && self.cached.is_none() {
            let lease = pool.take_in(class);
            let len = from.len().min(pool.words(&lease).len());
            let lease = pool.expect(lease);
            pool.fill(&lease, &from[..len]);
            let lease = pool.arrive(lease);
            if let Some(old) = replace(&mut self.cached, Some(lease)) {
                pool.drop_cached(old);
            }
        }
    }

    // A copy of the block at a place is on its way, where a slot is free and no other is.
    pub fn send(&mut self, pool: &mut Pool, at: usize, width: usize)
        requires stands { StandsIn pool.old self.old.blocks [] (self.old.cached ∷ []) (self.old.put ∷ []) }
        requires at { at < 2 }
        requires wide { HasWidth pool.old 16 width }
        ensures stands { StandsIn pool.new self.new.blocks [] (self.new.cached ∷ []) (self.new.put ∷ []) }
        ensures frame { Frames pool.old pool.new self.old.blocks self.new.blocks }
    {
        if pool.free() == 0 || self.put.is_some() {
            return;
        }
        if let Some(block) = &self.blocks[at] {
            if pool.words(block).len() == width {
                let lease = pool.send_copy(block);
                if let Some(old) = replace(&mut self.put, Some(lease)) {
                    pool.sent(old);
                }
            }
        }
    }
}

// Takes a slot of zeros for an empty place, where one is free.
pub fn take_at(pool: &mut Pool, class: u32, blocks: &mut [Option<Owned>], at: usize)
    requires holds { Holds pool.old State.Owned blocks.old }
    requires at { at < length blocks.old }
    ensures holds { Holds pool.new State.Owned blocks.new }
    ensures frame { Frames pool.old pool.new blocks.old blocks.new }
    ensures others { FramesAll pool.old pool.new blocks.old }
    ensures wide { (class width : ℕ) → HasWidth pool.old class width → HasWidth pool.new class width }
{
    if pool.free_in(class) > 0 && blocks[at].is_none() {
        let lease = pool.take_in(class);
        if let Some(old) = replace(&mut blocks[at], Some(lease)) {
            pool.give(old);
        }
    }
}

// A block on its way meets a block of another holder in the same pool.
pub fn deliver(
    worker: &Worker,
    home: &[Option<Owned>],
    pool: &mut Pool,
    at: usize,
    len: u32,
    how: How,
)
    requires worker { StandsIn pool.old worker.now.blocks [] (worker.now.cached ∷ []) (worker.now.put ∷ []) }
    requires home { Holds pool.old State.Owned home.now }
    requires apart { NoShared worker.now.blocks home.now }
    requires at { at < length home.now }
    ensures worker { StandsIn pool.new worker.now.blocks [] (worker.now.cached ∷ []) (worker.now.put ∷ []) }
    ensures home { Holds pool.new State.Owned home.now }
{
    if let Some(from) = &worker.put {
        if let Some(into) = &home[at] {
            let least = pool.sending(from).len().min(pool.words(into).len());
            if len as usize <= least {
                meet(pool, from, into, len, how);
            }
        }
    }
}

fn meet(pool: &mut Pool, from: &Sending, into: &Owned, len: u32, how: How)
    requires from { Stands pool.old State.Sending from.now }
    requires into { Stands pool.old State.Owned into.now }
    requires from_len { len ≤ length (words_at pool.old.words from.now) }
    requires into_len { len ≤ length (words_at pool.old.words into.now) }
    ensures { Writes pool.old pool.new into.now State.Owned (mixed how len (words_at pool.old.words into.now) (words_at pool.old.words from.now)) }
{
    match how {
        How::Set => pool.set_within(from, into, len),
        How::Add => pool.add_within(from, into, len),
        How::Greatest => pool.greatest_within(from, into, len),
    }
}

// Gives all slots of a worker back.
pub fn close(worker: Worker, pool: &mut Pool)
    requires { StandsIn pool.old worker.blocks [] (worker.cached ∷ []) (worker.put ∷ []) }
    ensures { Frames pool.old pool.new worker.blocks [] }
{
    let Worker {
        blocks,
        cached,
        put,
    } = worker;
    end_put(pool, put);
    end_cached(pool, cached);
    end_blocks(pool, blocks);
}

pub fn end_blocks(pool: &mut Pool, blocks: [Option<Owned>; 2])
    requires { Holds pool.old State.Owned blocks }
    ensures { Frames pool.old pool.new blocks [] }
{
    let [first, second] = blocks;
    end_both(pool, first, second);
}

fn end_both(pool: &mut Pool, first: Option<Owned>, second: Option<Owned>)
    requires { Holds pool.old State.Owned (first ∷ second ∷ []) }
    ensures { Frames pool.old pool.new (first ∷ second ∷ []) [] }
{
    end_block(pool, second);
    end_block(pool, first);
}

fn end_block(pool: &mut Pool, place: Option<Owned>)
    requires { ForSome place (Stands pool.old State.Owned) }
    ensures some { ForSome place (λ slot. Writes pool.old pool.new slot State.Free (words_at pool.old.words slot)) }
    ensures none { IfNone place (pool.new ≡ pool.old) }
{
    if let Some(lease) = place {
        pool.give(lease);
    }
}

fn end_cached(pool: &mut Pool, place: Option<Cached>)
    requires { ForSome place (Stands pool.old State.Cached) }
    ensures some { ForSome place (λ slot. Writes pool.old pool.new slot State.Free (words_at pool.old.words slot)) }
    ensures none { IfNone place (pool.new ≡ pool.old) }
{
    if let Some(lease) = place {
        pool.drop_cached(lease);
    }
}

fn end_put(pool: &mut Pool, place: Option<Sending>)
    requires { ForSome place (Stands pool.old State.Sending) }
    ensures some { ForSome place (λ slot. Writes pool.old pool.new slot State.Free (words_at pool.old.words slot)) }
    ensures none { IfNone place (pool.new ≡ pool.old) }
{
    if let Some(lease) = place {
        pool.sent(lease);
    }
}

// The worker takes, writes, sends and asks, beside a home in the same pool.
pub fn work(worker: &mut Worker, home: &[Option<Owned>], pool: &mut Pool)
    requires worker { StandsIn pool.old worker.old.blocks [] (worker.old.cached ∷ []) (worker.old.put ∷ []) }
    requires home { Holds pool.old State.Owned home.now }
    requires apart { NoShared worker.old.blocks home.now }
    requires wide { HasWidth pool.old 16 2 }
    ensures worker { StandsIn pool.new worker.new.blocks [] (worker.new.cached ∷ []) (worker.new.put ∷ []) }
    ensures home { Holds pool.new State.Owned home.now }
    ensures apart { NoShared worker.new.blocks home.now }
{
    worker.take(pool, 16, 0);
    worker.write(pool, 0, 7);
    worker.send(pool, 0, 2);
    worker.ask(pool, 16, &[5]);
}

// The words of a block by place.
pub fn words_of<'a>(pool: &'a Pool, blocks: &[Option<Owned>], at: usize) -> Option<&'a [u64]>
    requires holds { Holds pool.now State.Owned blocks.now }
    requires at { at < length blocks.now }
{
    match &blocks[at] {
        Some(lease) => Some(pool.words(lease)),
        None => None,
    }
}

// The words of the block on its way.
pub fn words_sent<'a>(pool: &'a Pool, worker: &Worker) -> Option<&'a [u64]>
    requires { StandsIn pool.now worker.now.blocks [] (worker.now.cached ∷ []) (worker.now.put ∷ []) }
{
    match &worker.put {
        Some(lease) => Some(pool.sending(lease)),
        None => None,
    }
}
