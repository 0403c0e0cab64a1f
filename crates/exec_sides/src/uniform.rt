//! One number for all positions of a target.

ghost use Rattle.std.specs.Prelude.{◌≡◌, ◌^◌, ◌<◌, length};
ghost use Rattle.sial_syntax.specs.Boxes.{volume};
ghost use Rattle.exec_sides.specs.Met.{Met};
ghost use Rattle.exec_sides.specs.Seen.{lengths_of};

use crate::seen::Shape;
use block_math::fill;
use kernel_contract::{Axis, contract_any};
use kernel_permute::How;

/// Each number of the target meets the same one.
pub fn meet_number(to: &Shape, number: u64, into: &mut [u64], how: How)
    requires words { length into.old ≡ volume (lengths_of to.now) }
    requires few { length into.old < 2 ^ 32 }
    ensures { Met how (lengths_of to.now) (λ t. number) into.old into.new }
{
    match how {
        How::Set => fill(into, number),
        _ => {
            let row = [Axis {
                len: into.len() as u32,
                a: 0,
                b: 0,
                to: 1,
            }];
            contract_any(&[number], &[1], into, &row, &[], &[], how);
        }
    }
}
