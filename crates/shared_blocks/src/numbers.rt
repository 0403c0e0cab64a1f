//! The numbers of an array's blocks.

ghost use Rattle.std.specs.Prelude.{◌≡◌, ◌+◌, ◌^◌, ◌≤◌, false};
ghost use Rattle.sip_setting.specs.Seen.{setting_of};
ghost use Rattle.sial_syntax.specs.Spaces.{same_kind};
ghost use Rattle.sial_meaning.specs.Setting.{array_kind, block_count, first_of_class};

use exec_job::Job;
use sial_syntax::ArrayKind;

/// How many blocks an array has that isn't temp.
pub fn block_count(job: &Job, array: u16) -> u32
    requires { same_kind (array_kind (setting_of job.now) array) ArrayKind.Temp ≡ false }
    ensures { result ≡ block_count (setting_of job.now) array }
{
    job.spaces().blocks_of(array)
}

/// The number of its first block among all blocks of arrays of its kind.
pub fn first_block(job: &Job, array: u16) -> u32
    requires { same_kind (array_kind (setting_of job.now) array) ArrayKind.Temp ≡ false }
    ensures value { result ≡ first_of_class (setting_of job.now) array }

    // So each block's number is one, too.
    ensures few { result + block_count (setting_of job.now) array ≤ 2 ^ 24 }
{
    job.spaces().first_block(array)
}
