//! Assignments of the first profile.

ghost use Rattle.std.specs.Prelude.{◌≡◌, Option, OnOk};
ghost use Rattle.sial_syntax.specs.Tree.{Assign};
ghost use Rattle.sip_setting.specs.Seen.{setting_of};
ghost use Rattle.first_profile.specs.FirstTree.{IsForm};
ghost use Rattle.first_profile.specs.Fits.{Fits, IsWithin};
ghost use Rattle.first_profile.specs.Ready.{IsFirstSetting};
ghost use Rattle.first_profile.specs.Running.{form_numbers};

use crate::blocks::{add, contract, fill, increase};
use crate::machine::Machine;
use sial_syntax::{Bin, Op, Operand, Right, Target};
use sip_setting::Granted;
use std::alloc::{AllocError, Global};

/// Does an assignment, in the loop over an index or outside.
pub fn assign(
    alloc: Global,
    granted: &Granted,
    within: Option<u16>,
    target: &Target,
    op: Op,
    right: &Right,
    machine: &mut Machine,
) -> Result<(), AllocError>
    requires setting { IsFirstSetting (setting_of granted.now) }
    requires fits { Fits (setting_of granted.now) machine.old }
    requires within { IsWithin (setting_of granted.now) machine.old within }
    requires form { IsForm (setting_of granted.now).program within (Assign target.now op right.now) }

    ensures { OnOk result (machine.new ≡ form_numbers (setting_of granted.now) (Assign target.now op right.now) machine.old) }
{
    match (target, op, right) {
        (Target::Block(block), Op::Set, Right::One(Operand::Number(number))) => {
            fill(alloc, granted, machine, block, *number)
        }
        (Target::Block(block), Op::Add, Right::One(Operand::Block(other))) => {
            add(alloc, granted, machine, block, other)
        }
        (Target::Scalar(scalar), Op::Set, Right::One(Operand::Number(number))) => {
            machine.set_scalar(*scalar, *number);
            Ok(())
        }
        (Target::Scalar(scalar), Op::Add, Right::One(Operand::Number(number))) => {
            increase(machine, *scalar, *number);
            Ok(())
        }
        (
            Target::Scalar(scalar),
            Op::Set,
            Right::Two(Operand::Block(left), Bin::Times, Operand::Block(other)),
        ) => {
            contract(granted, machine, *scalar, left, other);
            Ok(())
        }
        _ => Ok(()),
    }
}
