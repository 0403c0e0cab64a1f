//! A store in memory: zeros at its opening, and a block read back as it was written, beside the others.

ghost use Rattle.std.specs.Prelude.{◌≡◌, ◌<◌, length, slice_index};
ghost use Rattle.block_store.specs.Store.{WhereTold, HasBelow};

use block_store::{MemoryStore, Store};
use sip_files::Failed;
use std::test::Fail;

// Writes a block and reads it, through the trait alone.
#[tactic(auto, using(block_store::proofs::StoreLemmas::there_after_set))]
fn copy<S: Store>(store: &mut S, block: u32, from: &[u64], into: &mut [u64]) -> Result<(), Failed>
    requires block { block < length (S.sizes store.old) }
    requires from_len { length from.now ≡ slice_index (S.sizes store.old) block }
    requires into_len { length into.old ≡ slice_index (S.sizes store.old) block }
    requires below { WhereTold (S.told store.old) (HasBelow block) }
    ensures sizes { S.sizes store.new ≡ S.sizes store.old }
{
    store.write(block, from)?;
    store.read(block, into)
}

#[test]
#[tactic(auto, using(block_store::proofs::MemoryLemmas::has_block, block_store::proofs::MemoryLemmas::has_below))]
fn a_block_is_read_as_it_was_written(rt: HostRuntime) -> Result<(), Fail> {
    let mut store = MemoryStore::open(rt.alloc(), [1, 3, 0, 2].as_slice())?;
    let mut words = [5u64; 3];
    assert!(rt; store.read(1, &mut words).is_ok());
    assert_eq!(rt; words, [0, 0, 0]);
    assert!(rt; copy(&mut store, 1, &[7, 8, 9], &mut words).is_ok());
    assert_eq!(rt; words, [7, 8, 9]);
    assert!(rt; store.read(0, &mut words[..1]).is_ok());
    assert_eq!(rt; words, [0, 8, 9]);
    assert!(rt; store.read(3, &mut words[1..]).is_ok());
    assert_eq!(rt; words, [0, 0, 0]);
    Ok(())
}
