//! The order of a small cache, by an example.

use block_cache::{Cache, Found};
use sial_syntax::Class::{self, Distributed, Served};
use std::process::Abort;

// Fetches a block that is neither cached nor awaited.
fn fetch(rt: &impl Abort, cache: &mut Cache, class: Class, block: u32) {
    assert!(rt; cache.find(class, block) == Found::Absent);
    assert!(rt; !cache.is_full());
    cache.await_block(class, block);
    assert!(rt; cache.find(class, block) == Found::Awaited);
    cache.arrived(class, block);
}

#[test]
fn a_cache_keeps_the_order_of_use(rt: HostRuntime) {
    let mut cache = Cache::new(2);
    fetch(&rt, &mut cache, Distributed, 5);
    fetch(&rt, &mut cache, Distributed, 7);
    assert!(rt; cache.is_full());
    assert!(rt; cache.find(Distributed, 5) == Found::Cached);
    cache.touch(Distributed, 5);
    let both = cache.evict_except(Some((Distributed, 5)), Some((Distributed, 7)));
    assert!(rt; both.is_none());
    let last = cache.evict_except(Some((Distributed, 7)), None);
    assert!(rt; last == Some((Distributed, 5)));
    assert!(rt; cache.find(Distributed, 9) == Found::Absent);
    assert!(rt; !cache.is_full());
    cache.await_block(Distributed, 9);
    assert!(rt; cache.find(Distributed, 9) == Found::Awaited);
    assert!(rt; cache.find(Distributed, 5) == Found::Absent);
    assert!(rt; cache.evict_except(None, None) == Some((Distributed, 7)));
    assert!(rt; cache.evict_except(None, None).is_none());
}

#[test]
fn the_last_used_is_evicted_last(rt: HostRuntime) {
    let mut cache = Cache::new(2);
    fetch(&rt, &mut cache, Distributed, 5);
    fetch(&rt, &mut cache, Distributed, 7);
    assert!(rt; cache.evict_except(None, None) == Some((Distributed, 5)));
    assert!(rt; cache.evict_except(None, None) == Some((Distributed, 7)));
}

#[test]
fn a_use_moves_a_block_to_the_front(rt: HostRuntime) {
    let mut cache = Cache::new(3);
    fetch(&rt, &mut cache, Distributed, 5);
    fetch(&rt, &mut cache, Served, 5);
    fetch(&rt, &mut cache, Distributed, 7);
    assert!(rt; cache.find(Distributed, 5) == Found::Cached);
    cache.touch(Distributed, 5);
    cache.drop_class(Served);
    assert!(rt; cache.find(Served, 5) == Found::Absent);
    assert!(rt; cache.evict_except(None, None) == Some((Distributed, 7)));
    assert!(rt; cache.evict_except(None, None) == Some((Distributed, 5)));
}
