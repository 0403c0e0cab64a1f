//! What the indices of named blocks lie on.

ghost use Rattle.sip_setting.specs.Seen.{setting_of};
ghost use Rattle.exec_blocks.specs.Standing.{IsNamed};
ghost use Rattle.exec_assign.specs.Naming.{AreNamed, BlockLies, OperandLies, OperandNamed, SideLies};

use exec_job::Job;
use exec_names::{Extent, extents_now};
use sial_syntax::{BlockRef, Operand, Right};

/// What the indices of a right side's blocks lie on, by its operands.
#[derive(Drop)]
pub struct Extents {
    pub first: [Extent; 6],
    pub second: [Extent; 6],
}

const NOWHERE: [Extent; 6] = [Extent { start: 0, len: 0 }; 6];

/// What the indices of a right side's blocks lie on now.
pub fn extents_of(job: &Job, values: &[u32], right: &Right) -> Extents
    requires { AreNamed (setting_of job.now) values.now right.now }
    ensures { SideLies (setting_of job.now).spaces values.now result right.now }
{
    match right {
        Right::One(a) => Extents {
            first: operand_extents(job, values, a),
            second: NOWHERE,
        },
        Right::Two(a, _, b) => Extents {
            first: operand_extents(job, values, a),
            second: operand_extents(job, values, b),
        },
    }
}

// What an operand's indices lie on, if it is a block.
fn operand_extents(job: &Job, values: &[u32], operand: &Operand) -> [Extent; 6]
    requires { OperandNamed (setting_of job.now) values.now operand.now }
    ensures { OperandLies (setting_of job.now).spaces values.now result operand.now }
{
    match operand {
        Operand::Number(_) => NOWHERE,
        Operand::Scalar(_) => NOWHERE,
        Operand::Block(block) => block_extents(job, values, block),
    }
}

/// What a block's indices lie on.
pub fn block_extents(job: &Job, values: &[u32], block: &BlockRef) -> [Extent; 6]
    requires { IsNamed (setting_of job.now) values.now block.now }
    ensures { BlockLies (setting_of job.now).spaces values.now result block.now }
{
    let spaces = job.spaces();
    let indices = job.indices();
    let at = block.at.as_slice();
    let mut extents = NOWHERE;
    let lying = &mut extents[..at.len()];
    extents_now(spaces, indices, values, at, lying);
    extents
}
