//! Named blocks put down.

ghost use Rattle.std.specs.Prelude.{◌≡◌, Some, length, map, false, slice_set};
ghost use Rattle.sip_setting.specs.Seen.{setting_of};
ghost use Rattle.sial_syntax.specs.Spaces.{Spaces};
ghost use Rattle.sial_meaning.specs.LocalStep.{is_shared_kind, with_words};
ghost use Rattle.sial_meaning.specs.Own.{Own, members_of as named_members};
ghost use Rattle.sial_meaning.specs.Setting.{array_kind};
ghost use Rattle.block_seats.specs.Leaving.{Leaves};
ghost use Rattle.block_seats.specs.Putting.{Puts};
ghost use Rattle.block_seats.specs.Seated.{IsWide};
ghost use Rattle.exec_names.specs.Cutting.{IsCutAs};
ghost use Rattle.exec_names.specs.Naming.{pair_of, tuple_of};
ghost use Rattle.exec_blocks.specs.Kept.{place_of};
ghost use Rattle.exec_blocks.specs.Standing.{AreIn, BlocksStand, HasRoom, IsLaidOut, IsNamed};

use crate::blocks::Blocks;
use block_pool::Pool;
use exec_job::Job;
use exec_names::{Member, members_of};
use sial_syntax::{ArrayKind, BlockRef, IndexDecl};

impl Blocks {
    /// Puts words down in a named block. A temp holds that block from then on, whichever it held before; shared blocks are none of the worker's.
    pub fn put_down(
        &mut self,
        job: &Job,
        pool: &mut Pool,
        values: &[u32],
        block: &BlockRef,
        words: &[u64],
    )
        requires stands { AreIn (setting_of job.now) pool.old self.old }
        requires named { IsNamed (setting_of job.now) values.now block.now }
        requires wide { IsWide pool.old (length words.now) }

        // A block that isn't there takes a slot, and no other does.
        requires room { HasRoom (setting_of job.now) pool.old self.old values.now block.now }
        ensures stands { AreIn (setting_of job.now) pool.new self.new }
        ensures leaves { Leaves pool.old pool.new self.old.seats.slots self.new.seats.slots }
        ensures does { (own : Own) → own.values ≡ values.now → BlocksStand (setting_of job.now) pool.old self.old own → BlocksStand (setting_of job.now) pool.new self.new (with_words (setting_of job.now) block.now words.now own (array_kind (setting_of job.now) block.now.array)) }
    {
        match job.array_kind(block.array) {
            ArrayKind::Static => self.put_placed(job, pool, values, block, words),
            ArrayKind::Local => self.put_placed(job, pool, values, block, words),
            ArrayKind::Temp => self.put_temp(job, pool, values, block, words),
            _ => {}
        }
    }

    // A block of a static or local array.
    fn put_placed(
        &mut self,
        job: &Job,
        pool: &mut Pool,
        values: &[u32],
        block: &BlockRef,
        words: &[u64],
    )
        requires stands { AreIn (setting_of job.now) pool.old self.old }
        requires named { IsNamed (setting_of job.now) values.now block.now }
        requires wide { IsWide pool.old (length words.now) }
        requires room { HasRoom (setting_of job.now) pool.old self.old values.now block.now }
        requires own { is_shared_kind (array_kind (setting_of job.now) block.now.array) ≡ false }
        ensures puts { Puts pool.old pool.new self.old.seats self.new.seats (place_of (setting_of job.now) self.old values.now block.now) (Some words.now) }
        ensures same { self.new ≡ record self.old { seats = self.new.seats } }
    {
        let place = self.place(job, values, block);
        self.seats.put(pool, place, words);
    }

    // The block of a temp, with its tuple.
    fn put_temp(
        &mut self,
        job: &Job,
        pool: &mut Pool,
        values: &[u32],
        block: &BlockRef,
        words: &[u64],
    )
        requires stands { AreIn (setting_of job.now) pool.old self.old }
        requires named { IsNamed (setting_of job.now) values.now block.now }
        requires wide { IsWide pool.old (length words.now) }
        requires room { HasRoom (setting_of job.now) pool.old self.old values.now block.now }
        requires temp { array_kind (setting_of job.now) block.now.array ≡ ArrayKind.Temp }
        ensures puts { Puts pool.old pool.new self.old.seats self.new.seats (place_of (setting_of job.now) self.old values.now block.now) (Some words.now) }
        ensures same { (own : Own) → own.values ≡ values.now → self.new ≡ record self.old { seats = self.new.seats; tuples = slice_set self.old.tuples block.now.array (named_members (setting_of job.now) own block.now.at) } }
        ensures laid { IsLaidOut (setting_of job.now) self.new }
    {
        let place = self.place(job, values, block);
        let indices = job.indices();
        let tuple = &mut self.tuples[block.array as usize];
        write_tuple(tuple, indices, values, block.at.as_slice());
        self.seats.put(pool, place, words);
    }
}

// The members that indices name now, over those of another tuple.
fn write_tuple(tuple: &mut Vec<Member>, indices: &[IndexDecl], values: &[u32], at: &[u16])
    requires { length tuple.old.items ≡ length at.now }
    ensures members { (spaces : Spaces) (own : Own) → IsCutAs spaces indices.now → own.values ≡ values.now → map pair_of tuple.new.items ≡ tuple_of spaces own at.now }
    ensures len { length tuple.new.items ≡ length tuple.old.items }
{
    members_of(indices, values, at, tuple.as_mut_slice());
}
