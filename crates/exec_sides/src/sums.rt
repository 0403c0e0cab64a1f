//! Two blocks added, or one taken from the other, number by number.

ghost use Rattle.std.specs.Prelude.{◌≡◌, length};
ghost use Rattle.exec_sides.specs.Joined.{BothMet, joined, second_of};
ghost use Rattle.exec_sides.specs.Met.{Met};
ghost use Rattle.exec_sides.specs.Named.{IsCopy};
ghost use Rattle.exec_sides.specs.Seen.{lengths_of, seen, sight_of};
ghost use Rattle.sial_meaning.specs.JoinLaws.{word_under};

use crate::copying::copy_by_name;
use crate::seen::{Seen, Shape};
use block_math::scale;
use kernel_permute::How;

/// Each number of the target meets the sum of those of two blocks at the same members of the indices, or their difference.
///
/// What is taken away is added to the opposite numbers, and the opposite of that is left.
pub fn join_by_name(to: &Shape, left: &Seen, minus: bool, right: &Seen, into: &mut [u64], how: How)
    requires first { IsCopy (sight_of to.now into.old) (seen left.now) }
    requires second { IsCopy (sight_of to.now into.old) (seen right.now) }
    ensures { Met how (lengths_of to.now) (λ t. joined minus (word_under to.now.at.now t (seen left.now)) (word_under to.now.at.now t (seen right.now))) into.old into.new }
{
    let second = second_of(minus);
    match how {
        How::Subtract => {
            scale(into, u64::MAX);
            meet_both(to, left, right, into, How::Add, second);
            scale(into, u64::MAX);
        }
        _ => meet_both(to, left, right, into, how, second),
    }
}

// Each number meets that of the first block, and then that of the second.
fn meet_both(to: &Shape, left: &Seen, right: &Seen, into: &mut [u64], how: How, second: How)
    requires first { IsCopy (sight_of to.now into.old) (seen left.now) }
    requires second { IsCopy (sight_of to.now into.old) (seen right.now) }
    ensures { BothMet how second (lengths_of to.now) (λ t. word_under to.now.at.now t (seen left.now)) (λ t. word_under to.now.at.now t (seen right.now)) into.old into.new }
{
    copy_by_name(to, left, into, how);
    copy_by_name(to, right, into, second);
}

// How the second block meets a target that the first has met.
fn second_of(minus: bool) -> How
    ensures { result ≡ second_of minus }
{
    if minus { How::Subtract } else { How::Add }
}
