//! Where named blocks stand.

ghost use Rattle.std.specs.Prelude.{◌≡◌, ◌+◌, ◌<◌, [], false, slice_index_or};
ghost use Rattle.sip_setting.specs.Seen.{setting_of};
ghost use Rattle.sial_syntax.specs.Spaces.{rank_of, same_kind};
ghost use Rattle.sial_meaning.specs.Own.{Own, members_of, same_members};
ghost use Rattle.sial_meaning.specs.Setting.{array_kind, block_count, dims_of, first_of_class};
ghost use Rattle.exec_names.specs.Naming.{numbers_of};
ghost use Rattle.exec_blocks.specs.Kept.{place_of};
ghost use Rattle.exec_blocks.specs.Standing.{IsLaidOut, IsNamed};

use crate::blocks::Blocks;
use exec_job::Job;
use exec_names::{are_members, block_number};
use sial_syntax::{ArrayKind, BlockRef};

// The place of a block among those of all arrays of its kind, which isn't temp.
fn place_among(job: &Job, values: &[u32], block: &BlockRef) -> usize
    requires named { IsNamed (setting_of job.now) values.now block.now }
    requires counted { same_kind (array_kind (setting_of job.now) block.now.array) ArrayKind.Temp ≡ false }
    ensures value { result ≡ first_of_class (setting_of job.now) block.now.array + rank_of (setting_of job.now).spaces (dims_of (setting_of job.now) block.now.array) (numbers_of values.now block.now.at) }
    ensures within { rank_of (setting_of job.now).spaces (dims_of (setting_of job.now) block.now.array) (numbers_of values.now block.now.at) < block_count (setting_of job.now) block.now.array }
{
    let spaces = job.spaces();
    let number = block_number(spaces, values, block.array, block.at.as_slice());
    spaces.first_block(block.array) as usize + number as usize
}

impl Blocks {
    // The place of a named block; shared ones have none.
    pub(crate) fn place(&self, job: &Job, values: &[u32], block: &BlockRef) -> usize
        requires stands { IsLaidOut (setting_of job.now) self.now }
        requires named { IsNamed (setting_of job.now) values.now block.now }
        ensures { result ≡ place_of (setting_of job.now) self.now values.now block.now }
    {
        let _places = self.seats.len();
        match job.array_kind(block.array) {
            ArrayKind::Static => place_among(job, values, block),
            ArrayKind::Local => self.locals_at + place_among(job, values, block),
            ArrayKind::Temp => self.temps_at + block.array as usize,
            _ => 0,
        }
    }

    // Whether a temp's tuple is the one that a block names.
    pub(crate) fn is_tuple(&self, job: &Job, values: &[u32], block: &BlockRef) -> bool
        requires stands { IsLaidOut (setting_of job.now) self.now }
        requires named { IsNamed (setting_of job.now) values.now block.now }
        ensures { (own : Own) → own.values ≡ values.now → result ≡ same_members (slice_index_or self.now.tuples block.now.array []) (members_of (setting_of job.now) own block.now.at) }
    {
        let tuple = self.tuples[block.array as usize].as_slice();
        are_members(job.indices(), values, tuple, block.at.as_slice())
    }
}
