//! How many words blocks have.

ghost use Rattle.std.specs.Prelude.{◌≡◌, ◌<◌, false};
ghost use Rattle.sip_setting.specs.Seen.{setting_of};
ghost use Rattle.sial_syntax.specs.Spaces.{same_kind};
ghost use Rattle.sial_meaning.specs.Setting.{array_kind, block_count, block_words};

use exec_job::Job;
use sial_syntax::ArrayKind;

// How many dimensions an array has at most.
const MOST_DIMS: usize = 6;

/// How many words a block has, by its number within its array, which isn't temp.
pub fn block_len(job: &Job, array: u16, number: u32) -> u32
    requires counted { same_kind (array_kind (setting_of job.now) array) ArrayKind.Temp ≡ false }
    requires below { number < block_count (setting_of job.now) array }
    ensures { result ≡ block_words (setting_of job.now) array number }
{
    let spaces = job.spaces();
    let dims = spaces.dims(array);
    let mut numbers = [0; MOST_DIMS];
    let tuple = &mut numbers[..dims.len()];
    spaces.tuple_at(dims, number as u64, tuple);
    spaces.block_words(array, tuple)
}
