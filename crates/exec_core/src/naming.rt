//! Shared blocks that are named.

ghost use Rattle.std.specs.Prelude.{◌≡◌, [], ◌∷◌, map};
ghost use Rattle.exec_core.specs.Instructions.{AreShared, IsShared, op_reads};
ghost use Rattle.exec_core.specs.Shared.{blocks_of, listed, named_of};
ghost use Rattle.sial_meaning.specs.LocalStep.{shared_in, shared_operand};
ghost use Rattle.sial_meaning.specs.Own.{Own};
ghost use Rattle.sial_meaning.specs.Setting.{array_kind, class_of_kind};
ghost use Rattle.sial_meaning.specs.Statement.{class_or, named};
ghost use Rattle.sial_syntax.specs.declared.operand.Operand.TheVariants as operand;
ghost use Rattle.sip_setting.specs.Seen.{setting_of};

use crate::local::Local;
use crate::shared::{Needs, SharedBlock};
use exec_job::Job;
use exec_names::block_number;
use sial_syntax::{ArrayKind, BlockRef, Class, Operand, Right};
use sip_tables::Operation;

impl Local {
    // The shared blocks that an instruction reads.
    pub(crate) fn reads(&self, job: &Job, operation: &Operation) -> Needs
        requires { AreShared (setting_of job.now) self.now.control.values (op_reads (setting_of job.now) operation.now) }
        ensures { (own : Own) → own.values ≡ self.now.control.values
            → blocks_of result ≡ map (named (setting_of job.now) own) (op_reads (setting_of job.now) operation.now) }
    {
        match operation {
            Operation::Assign { right, .. } => self.operands(job, right),
            Operation::Get { block } => self.one(job, block),
            Operation::Request { block } => self.one(job, block),
            _ => Needs {
                first: None,
                second: None,
            },
        }
    }

    // One shared block.
    fn one(&self, job: &Job, block: &BlockRef) -> Needs
        requires { IsShared (setting_of job.now) self.now.control.values block.now }
        ensures { (own : Own) → own.values ≡ self.now.control.values → blocks_of result ≡ named (setting_of job.now) own block.now ∷ [] }
    {
        Needs {
            first: Some(self.shared(job, block)),
            second: None,
        }
    }

    // Those of a right side.
    fn operands(&self, job: &Job, right: &Right) -> Needs
        requires { AreShared (setting_of job.now) self.now.control.values (shared_in (setting_of job.now) right.now) }
        ensures { (own : Own) → own.values ≡ self.now.control.values
            → blocks_of result ≡ map (named (setting_of job.now) own) (shared_in (setting_of job.now) right.now) }
    {
        match right {
            Right::One(a) => Needs {
                first: self.operand(job, a),
                second: None,
            },
            Right::Two(a, _, b) => Needs {
                first: self.operand(job, a),
                second: self.operand(job, b),
            },
        }
    }

    // That of an operand.
    fn operand(&self, job: &Job, operand: &Operand) -> Option<SharedBlock>
        requires { AreShared (setting_of job.now) self.now.control.values (shared_operand (setting_of job.now) operand.now) }
        ensures { (own : Own) → own.values ≡ self.now.control.values
            → listed result ≡ map (named (setting_of job.now) own) (shared_operand (setting_of job.now) operand.now) }
    {
        match operand {
            Operand::Block(block) => self.if_shared(job, block),
            _ => None,
        }
    }

    // A named block, if it is shared.
    fn if_shared(&self, job: &Job, block: &BlockRef) -> Option<SharedBlock>
        requires { AreShared (setting_of job.now) self.now.control.values (shared_operand (setting_of job.now) (operand.Block block.now)) }
        ensures { (own : Own) → own.values ≡ self.now.control.values
            → listed result ≡ map (named (setting_of job.now) own) (shared_operand (setting_of job.now) (operand.Block block.now)) }
    {
        match job.array_kind(block.array) {
            ArrayKind::Distributed => Some(self.shared(job, block)),
            ArrayKind::Served => Some(self.shared(job, block)),
            _ => None,
        }
    }

    // A shared block, by its class and its number among all blocks of the class.
    pub(crate) fn shared(&self, job: &Job, block: &BlockRef) -> SharedBlock
        requires { IsShared (setting_of job.now) self.now.control.values block.now }
        ensures { (own : Own) → own.values ≡ self.now.control.values → named_of result ≡ named (setting_of job.now) own block.now }
    {
        let spaces = job.spaces();
        let first = spaces.first_block(block.array);
        let number = block_number(
            spaces,
            self.control.values(),
            block.array,
            block.at.as_slice(),
        );
        SharedBlock {
            class: class_of(job.array_kind(block.array)),
            block: first + number,
        }
    }
}

// The class of a kind of shared arrays.
fn class_of(kind: ArrayKind) -> Class
    ensures { result ≡ class_or (class_of_kind kind) }
{
    match kind {
        ArrayKind::Served => Class::Served,
        _ => Class::Distributed,
    }
}
