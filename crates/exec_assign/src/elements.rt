//! The elements of named blocks, where they stand.

ghost use Rattle.std.specs.Prelude.{◌≡◌, ◌-◌, ◌^◌, ℕ, List, ◌∷◌, IfSome, min, true};
ghost use Rattle.sip_setting.specs.Seen.{setting_of};
ghost use Rattle.sial_syntax.specs.Boxes.{volume};
ghost use Rattle.sial_meaning.specs.LocalStep as spec;
ghost use Rattle.sial_meaning.specs.LocalStep.{first_value, is_shared_kind};
ghost use Rattle.sial_meaning.specs.Own.{Own};
ghost use Rattle.sial_meaning.specs.Setting.{array_kind};
ghost use Rattle.sial_meaning.specs.Sight.{lengths};
ghost use Rattle.exec_blocks.specs.Standing.{AreIn, BlocksStand, IsNamed};
ghost use Rattle.exec_sides.specs.Seen.{extents_of};
ghost use Rattle.exec_assign.specs.Answers.{answer_of};
ghost use Rattle.exec_assign.specs.Lent.{IsLent, lent_words, slot_of};

use block_pool::{Cached, Pool};
use exec_blocks::Blocks;
use exec_job::Job;
use exec_names::Extent;
use sial_meaning::TrapKind;
use sial_syntax::{ArrayKind, BlockRef};

/// How many positions some extents have together, as far as a `u64` goes.
pub fn positions(extents: &[Extent]) -> u64
    ensures { result ≡ min (volume (lengths (extents_of extents.now))) (2 ^ 64 - 1) }
{
    match extents {
        [] => 1,
        [extent, rest @ ..] => (extent.len as u64).saturating_mul(positions(rest)),
    }
}

// The elements of a block that lies on these extents, in the slot of a lease.
fn lent<'a>(pool: &'a Pool, lease: Option<&Cached>, extents: &[Extent]) -> &'a [u64]
    requires { IfSome (slot_of lease) (IsLent pool.now (volume (lengths (extents_of extents.now)))) }
    ensures { result.now ≡ lent_words pool.now (volume (lengths (extents_of extents.now))) (slot_of lease.entry) }
{
    match lease {
        Some(lease) => &pool.cached(lease)[..positions(extents) as usize],
        None => &[],
    }
}

// Whether an array is shared.
fn is_shared(job: &Job, array: u16) -> bool
    ensures { result ≡ is_shared_kind (array_kind (setting_of job.now) array) }
{
    match job.array_kind(array) {
        ArrayKind::Static => false,
        ArrayKind::Temp => false,
        ArrayKind::Local => false,
        ArrayKind::Distributed => true,
        ArrayKind::Served => true,
    }
}

/// The elements of a named block that lies on these extents: of the worker's own where they stand, of a shared one those
/// of its lease.
pub fn elements<'a>(
    job: &Job,
    pool: &'a Pool,
    blocks: &Blocks,
    values: &[u32],
    block: &BlockRef,
    lease: Option<&Cached>,
    extents: &[Extent],
) -> Result<&'a [u64], TrapKind>
    requires seated { AreIn (setting_of job.now) pool.now blocks.now }
    requires named { IsNamed (setting_of job.now) values.now block.now }
    requires lent { IfSome (slot_of lease) (IsLent pool.now (volume (lengths (extents_of extents.now)))) }
    ensures { (own : Own) (more : List (List ℕ)) → own.values ≡ values.now → BlocksStand (setting_of job.now) pool.now blocks.now own
        → (is_shared_kind (array_kind (setting_of job.now) block.now.array) ≡ true
        → first_value more ≡ lent_words pool.now (volume (lengths (extents_of extents.now))) (slot_of lease.entry))
        → spec.words_of (setting_of job.now) own block.now more ≡ answer_of (λ words. words.now) result }
{
    if is_shared(job, block.array) {
        Ok(lent(pool, lease, extents))
    } else {
        blocks.words(job, pool, values, block)
    }
}
