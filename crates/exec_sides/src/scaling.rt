//! A block times a number.

ghost use Rattle.exec_sides.specs.Met.{Met};
ghost use Rattle.exec_sides.specs.Named.{IsCopy};
ghost use Rattle.exec_sides.specs.Seen.{lengths_of, seen, sight_of};
ghost use Rattle.sial_meaning.specs.JoinLaws.{word_under};
ghost use Rattle.sial_meaning.specs.Number.{times};

use crate::contracting::contract_by_name;
use crate::seen::{Seen, Shape};
use kernel_permute::How;

/// Each number of the target meets that of a block times another: a contraction with a block that has no index.
pub fn meet_scaled(to: &Shape, from: &Seen, number: u64, into: &mut [u64], how: How)
    requires fits { IsCopy (sight_of to.now into.old) (seen from.now) }
    ensures { Met how (lengths_of to.now) (λ t. times (word_under to.now.at.now t (seen from.now)) number) into.old into.new }
{
    let words = [number];
    let shape = Shape {
        at: &[],
        extents: &[],
    };
    let factor = Seen {
        shape,
        words: &words,
    };
    contract_by_name(to, from, &factor, into, how);
}
