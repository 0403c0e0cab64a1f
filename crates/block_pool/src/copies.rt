//! Copies from one pool into another.

ghost use Rattle.std.specs.Prelude.{◌≡◌, ◌≤◌, length, take};
ghost use Rattle.block_pool.specs.Memory.{words_at, with_front};
ghost use Rattle.block_pool.specs.Changes.{Stands, Writes};

use crate::lease::{Awaiting, Owned};
use crate::pool::Pool;
use crate::state::State;

/// Copies a block of one pool into a slot of another that waits for it.
pub fn copy_between(from: &Pool, lease: &Owned, to: &mut Pool, into: &Awaiting)
    requires lease { Stands from.now State.Owned lease.now }
    requires into { Stands to.old State.Awaiting into.now }
    requires wide { length (words_at from.now.words lease.now) ≡ length (words_at to.old.words into.now) }
    ensures { Writes to.old to.new into.now State.Awaiting (words_at from.now.words lease.now) }
{
    to.fill(into, from.words(lease));
}

/// Copies the front of a block of one pool into a slot of another that waits for it.
pub fn copy_front(from: &Pool, lease: &Owned, to: &mut Pool, into: &Awaiting, len: u32)
    requires lease { Stands from.now State.Owned lease.now }
    requires into { Stands to.old State.Awaiting into.now }
    requires from_len { len ≤ length (words_at from.now.words lease.now) }
    requires into_len { len ≤ length (words_at to.old.words into.now) }
    ensures { Writes to.old to.new into.now State.Awaiting (with_front (words_at to.old.words into.now) (take len (words_at from.now.words lease.now))) }
{
    to.fill(into, &from.words(lease)[..len as usize]);
}
