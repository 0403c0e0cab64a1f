//! What only a run shows: openings with memory, and words at their places.

use crate::worker::{Worker, close, deliver, end_blocks, take_at, words_of, words_sent, work};
use block_pool::{How, Pool, copy_between, copy_front};
use std::test::Fail;

#[test]
fn a_sending_slot_keeps_its_words_while_all_others_come_and_go(
    rt: HostRuntime,
) -> Result<(), Fail> {
    let mut pool = Pool::open(rt.alloc(), 3, 2)?;
    let mut worker = Worker::new();
    worker.take(&mut pool, 16, 0);
    worker.write(&mut pool, 0, 7);
    worker.send(&mut pool, 0, 2);
    worker.give(&mut pool, 0);
    worker.take(&mut pool, 16, 0);
    worker.take(&mut pool, 16, 1);
    worker.write(&mut pool, 0, 8);
    worker.write(&mut pool, 1, 9);
    assert_eq!(rt; pool.free(), 0);
    assert!(rt; words_sent(&pool, &worker) == Some([7, 7].as_slice()));
    worker.give(&mut pool, 0);
    worker.give(&mut pool, 1);
    assert_eq!(rt; pool.free(), 2);
    assert!(rt; words_sent(&pool, &worker) == Some([7, 7].as_slice()));
    close(worker, &mut pool);
    assert_eq!(rt; pool.free(), 3);
    Ok(())
}

#[test]
fn two_classes_run_out_one_by_one(rt: HostRuntime) -> Result<(), Fail> {
    let mut slots = [0; 17];
    let mut widths = [0; 17];
    (slots[0], widths[0]) = (1, 1);
    (slots[3], widths[3]) = (2, 6);
    let mut pool = Pool::open_classes(rt.alloc(), &slots, &widths)?;
    let mut worker = Worker::new();
    assert!(rt; [pool.free_in(0), pool.free_in(1), pool.free_in(3)] == [1, 0, 2]);
    worker.take(&mut pool, 0, 0);
    assert!(rt; words_of(&pool, &worker.blocks, 0) == Some([0].as_slice()));
    worker.take(&mut pool, 0, 1);
    assert!(rt; words_of(&pool, &worker.blocks, 1).is_none());
    assert!(rt; [pool.free_in(0), pool.free_in(1), pool.free_in(3)] == [0, 0, 2]);
    worker.take(&mut pool, 3, 1);
    assert!(rt; words_of(&pool, &worker.blocks, 1) == Some([0; 6].as_slice()));
    worker.give(&mut pool, 0);
    worker.take(&mut pool, 3, 0);
    assert!(rt; [pool.free_in(0), pool.free_in(1), pool.free_in(3)] == [1, 0, 0]);
    close(worker, &mut pool);
    assert!(rt; [pool.free_in(0), pool.free_in(1), pool.free_in(3)] == [1, 0, 2]);
    Ok(())
}

#[test]
fn a_put_is_delivered_to_a_home_in_the_same_pool(rt: HostRuntime) -> Result<(), Fail> {
    let mut pool = Pool::open(rt.alloc(), 4, 2)?;
    let mut home = [None, None];
    take_at(&mut pool, 16, &mut home, 0);
    let mut worker = Worker::new();
    work(&mut worker, &home, &mut pool);
    assert_eq!(rt; pool.free(), 0);
    assert!(rt; words_of(&pool, &home, 0) == Some([0, 0].as_slice()));
    deliver(&worker, &home, &mut pool, 0, 1, How::Greatest);
    deliver(&worker, &home, &mut pool, 0, 1, How::Add);
    assert!(rt; words_of(&pool, &home, 0) == Some([14, 0].as_slice()));
    deliver(&worker, &home, &mut pool, 0, 2, How::Greatest);
    assert!(rt; words_of(&pool, &home, 0) == Some([14, 7].as_slice()));
    deliver(&worker, &home, &mut pool, 0, 1, How::Set);
    assert!(rt; words_of(&pool, &home, 0) == Some([7, 7].as_slice()));
    deliver(&worker, &home, &mut pool, 0, 2, How::Add);
    assert!(rt; words_of(&pool, &home, 0) == Some([14, 14].as_slice()));
    close(worker, &mut pool);
    assert_eq!(rt; pool.free(), 3);
    end_blocks(&mut pool, home);
    assert_eq!(rt; pool.free(), 4);
    Ok(())
}

#[test]
fn a_lifted_slot_is_zeros_apart_from_the_pool(rt: HostRuntime) -> Result<(), Fail> {
    let mut slots = [0; 17];
    let mut widths = [0; 17];
    (slots[0], widths[0]) = (1, 1);
    (slots[3], widths[3]) = (2, 6);
    let mut pool = Pool::open_classes(rt.alloc(), &slots, &widths)?;
    assert_eq!(rt; pool.free_in(3), 2);
    let mut lifted = pool.lift();
    assert!(rt; lifted.words() == [0; 6].as_slice());
    lifted.words_mut().fill(5);
    assert!(rt; lifted.words() == [5; 6].as_slice());
    assert_eq!(rt; pool.free_in(3), 1);
    pool.lower(lifted);
    assert_eq!(rt; pool.free_in(3), 2);
    Ok(())
}

#[test]
#[tactic(auto, using(block_pool::proofs::OneChange::refilled_stands))]
fn copies_between_pools_have_the_words_asked_for(rt: HostRuntime) -> Result<(), Fail> {
    let mut one = Pool::open(rt.alloc(), 1, 3)?;
    let mut two = Pool::open(rt.alloc(), 1, 3)?;
    assert!(rt; [one.free(), two.free()] == [1, 1]);
    let block = one.take();
    let words = one.words_mut(&block);
    assert!(rt; words.len() == 3);
    words.copy_from_slice(&[4, 5, 6]);
    let into = two.take();
    assert!(rt; two.words(&into).len() == one.words(&block).len());
    let into = two.expect(into);
    copy_front(&one, &block, &mut two, &into, 2);
    let cached = two.arrive(into);
    assert!(rt; two.cached(&cached) == [4, 5, 0].as_slice());
    two.drop_cached(cached);
    assert_eq!(rt; two.free(), 1);
    let into = two.take();
    assert!(rt; two.words(&into).len() == one.words(&block).len());
    let into = two.expect(into);
    copy_between(&one, &block, &mut two, &into);
    let cached = two.arrive(into);
    assert!(rt; two.cached(&cached) == [4, 5, 6].as_slice());
    two.drop_cached(cached);
    one.give(block);
    Ok(())
}

#[test]
#[tactic(auto, using(block_pool::proofs::OneChange::refilled_stands))]
fn a_block_is_copied_within_a_pool(rt: HostRuntime) -> Result<(), Fail> {
    let mut pool = Pool::open(rt.alloc(), 2, 3)?;
    assert_eq!(rt; pool.free(), 2);
    let block = pool.take();
    let words = pool.words_mut(&block);
    assert!(rt; words.len() == 3);
    words.copy_from_slice(&[4, 5, 6]);
    assert_eq!(rt; pool.free(), 1);
    let into = pool.take();
    assert!(rt; [pool.words(&into).len(), pool.words(&block).len()] == [3, 3]);
    let into = pool.expect(into);
    pool.copy_within(&block, &into);
    let cached = pool.arrive(into);
    assert!(rt; pool.cached(&cached) == [4, 5, 6].as_slice());
    pool.drop_cached(cached);
    pool.give(block);
    Ok(())
}

#[test]
#[tactic(auto, using(block_pool::proofs::OneChange::refilled_stands))]
fn a_front_is_copied_within_a_pool(rt: HostRuntime) -> Result<(), Fail> {
    let mut pool = Pool::open(rt.alloc(), 2, 3)?;
    assert_eq!(rt; pool.free(), 2);
    let block = pool.take();
    let words = pool.words_mut(&block);
    assert!(rt; words.len() == 3);
    words.copy_from_slice(&[4, 5, 6]);
    assert_eq!(rt; pool.free(), 1);
    let into = pool.take();
    assert!(rt; [pool.words(&into).len(), pool.words(&block).len()] == [3, 3]);
    let into = pool.expect(into);
    pool.copy_front_within(&block, &into, 2);
    let cached = pool.arrive(into);
    assert!(rt; pool.cached(&cached) == [4, 5, 0].as_slice());
    pool.drop_cached(cached);
    pool.give(block);
    Ok(())
}

#[test]
#[tactic(auto, using(block_pool::proofs::OneChange::refilled_stands))]
fn copies_on_their_way_have_the_words_asked_for(rt: HostRuntime) -> Result<(), Fail> {
    let mut pool = Pool::open(rt.alloc(), 2, 3)?;
    assert_eq!(rt; pool.free(), 2);
    let block = pool.take();
    let words = pool.words_mut(&block);
    assert!(rt; words.len() == 3);
    words.copy_from_slice(&[4, 5, 6]);
    assert_eq!(rt; pool.free(), 1);
    let sent = pool.send_in(&block, 3, 2);
    assert!(rt; pool.sending(&sent) == [4, 5, 0].as_slice());
    pool.sent(sent);
    pool.give(block);
    assert_eq!(rt; pool.free(), 2);
    Ok(())
}
