//! A block copied into another with the same indices.

ghost use Rattle.std.specs.Prelude.{◌≡◌};
ghost use Rattle.sial_meaning.specs.JoinLaws.{word_under};
ghost use Rattle.exec_sides.specs.Met.{Met};
ghost use Rattle.exec_sides.specs.Named.{IsCopy};
ghost use Rattle.exec_sides.specs.Seen.{lengths_of, seen, sight_of};

use crate::indices::{dims_of, order_of};
use crate::seen::{Seen, Shape};
use kernel_permute::{How, permute_any};

/// Each number of the target meets that of the source at the same members of the indices, taken by name.
pub fn copy_by_name(to: &Shape, from: &Seen, into: &mut [u64], how: How)
    requires fits { IsCopy (sight_of to.now into.old) (seen from.now) }
    ensures { Met how (lengths_of to.now) (λ t. word_under to.now.at.now t (seen from.now)) into.old into.new }
{
    let dims = dims_of(from.shape.extents);
    let order = order_of(to.at, from.shape.at);
    permute_any(to.at.len() as u32, from.words, &dims, &order, into, how);
}
