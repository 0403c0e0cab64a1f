//! The input's blocks of served arrays.

ghost use Rattle.std.specs.Prelude.{◌≡◌, ◌+◌, true, [], slice_set};
ghost use Rattle.sip_setting.specs.Given.{given};
ghost use Rattle.sip_setting.specs.Seen.{setting_of};
ghost use Rattle.index_spaces.specs.Starting.{given_of};
ghost use Rattle.sial_meaning.specs.Setting.{array_kind, first_of_class};
ghost use Rattle.sial_meaning.specs.Sound.{IsSound, is_start};
ghost use Rattle.shared_blocks.specs.Standing.{AreWhole};
ghost use Rattle.shared_blocks.specs.Starting.{AreStartBut};

use crate::numbers::first_block;
use block_store::MemoryStore;
use exec_job::Job;
use index_spaces::StartBlock;
use sial_syntax::ArrayKind;

/// Puts the input's blocks of served arrays where zeros are.
pub fn put_given(served: &mut MemoryStore, job: &Job)
    requires { AreWhole (setting_of job.now) ArrayKind.Served served.old }
    ensures sound { IsSound (setting_of job.now) }
    ensures whole { AreWhole (setting_of job.now) ArrayKind.Served served.new }
    ensures start { AreStartBut (setting_of job.now) served.old (setting_of job.now).blocks
        → AreStartBut (setting_of job.now) served.new [] }
{
    let _spaces = job.spaces();
    let blocks = job.start_blocks();
    for block in blocks {
        put_if_served(served, job, block);
    }
}

// One of the input's blocks, if its array is served; others are not shared.
fn put_if_served(served: &mut MemoryStore, job: &Job, block: &StartBlock)
    requires fits { is_start (setting_of job.now) (given (given_of block.now)) ≡ true }
    requires whole { AreWhole (setting_of job.now) ArrayKind.Served served.old }
    ensures served { array_kind (setting_of job.now) block.now.array ≡ ArrayKind.Served
        → served.new ≡ slice_set served.old (first_of_class (setting_of job.now) block.now.array + block.now.number) block.now.words.items }
    ensures other { (array_kind (setting_of job.now) block.now.array ≡ ArrayKind.Served → ⊥) → served.new ≡ served.old }
{
    match job.array_kind(block.array) {
        ArrayKind::Served => put_served(served, job, block),
        _ => {}
    }
}

// One of them, of a served array.
fn put_served(served: &mut MemoryStore, job: &Job, block: &StartBlock)
    requires kind { array_kind (setting_of job.now) block.now.array ≡ ArrayKind.Served }
    requires fits { is_start (setting_of job.now) (given (given_of block.now)) ≡ true }
    requires whole { AreWhole (setting_of job.now) ArrayKind.Served served.old }
    ensures { served.new
        ≡ slice_set served.old (first_of_class (setting_of job.now) block.now.array + block.now.number) block.now.words.items }
{
    let first = first_block(job, block.array);
    let words = served.words_mut(first + block.number);
    words.copy_from_slice(block.words.as_slice());
}
