//! What a statement needs of others.

ghost use Rattle.std.specs.Prelude.{◌≡◌, Some, IfSome, if◌then◌else◌, None, map};
ghost use Rattle.std.specs.List.{list_any};
ghost use Rattle.block_pool.specs.Memory.{Memory};
ghost use Rattle.exec_core.specs.Instructions.{op_trap};
ghost use Rattle.exec_core.specs.Runs.{AtWork};
ghost use Rattle.exec_core.specs.Shared.{AreNeeds, named_of, needed, transferred_next};
ghost use Rattle.exec_core.specs.Stands.{OfWorks};
ghost use Rattle.sial_meaning.specs.LocalStep.{shared_in, shared_operand};
ghost use Rattle.sial_meaning.specs.Next.{next_of};
ghost use Rattle.sial_meaning.specs.Own.{Own, is_created};
ghost use Rattle.sial_meaning.specs.Statement.{is_missing, named};
ghost use Rattle.sial_syntax.specs.declared.operand.BlockRef.{BlockRef};
ghost use Rattle.sip_setting.specs.Seen.{setting_of};

use crate::local::Local;
use crate::shared::{Needs, SharedBlock};
use exec_job::Job;
use sial_meaning::{Trap, TrapKind};
use sial_syntax::{ArrayKind, BlockRef, Operand, Right};
use sip_tables::Operation;

impl Local {
    /// The shared blocks that the statement at the cursor reads, in order, or the trap of the created flags that it finds
    /// otherwise than it wants them.
    pub fn needs(&self, job: &Job) -> Result<Needs, Trap>
        requires at_work { (p : Memory) × AtWork (setting_of job.now) p self.now }
        ensures { (p : Memory) → OfWorks (setting_of job.now) p self.now (λ rest own partials. AreNeeds result (needed (setting_of job.now) (next_of rest) own)) }
    {
        let _spaces = job.spaces();
        let instruction = job.instruction(self.control.at());
        match self.trap(job, &instruction.operation) {
            Some(kind) => Err(Trap {
                kind,
                line: instruction.line,
            }),
            None => Ok(self.reads(job, &instruction.operation)),
        }
    }

    // The trap of an instruction's created flags.
    fn trap(&self, job: &Job, operation: &Operation) -> Option<TrapKind>
        ensures { (own : Own) → self.now.created ≡ own.created → result ≡ op_trap (setting_of job.now) operation.now own }
    {
        match operation {
            Operation::Create { array } => self.twice(*array),
            Operation::Put { block, .. } => self.unless_created(job, block.array),
            Operation::Delete { array } => self.unless_created(job, *array),
            Operation::Get { block } => self.unless_created(job, block.array),
            Operation::Request { block } => self.unless_created(job, block.array),
            Operation::Assign { right, .. } => self.unless_operands(job, right),
            _ => None,
        }
    }

    // The trap where an array is created already.
    fn twice(&self, array: u16) -> Option<TrapKind>
        ensures { (own : Own) → self.now.created ≡ own.created → result ≡ (if is_created own array then Some TrapKind.AlreadyCreated else None) }
    {
        if self.created(array) {
            Some(TrapKind::AlreadyCreated)
        } else {
            None
        }
    }

    // The trap where an array is missing.
    fn unless_created(&self, job: &Job, array: u16) -> Option<TrapKind>
        ensures { (own : Own) → self.now.created ≡ own.created → result ≡ (if is_missing (setting_of job.now) own array then Some TrapKind.NotCreated else None) }
    {
        if self.misses(job, array) {
            Some(TrapKind::NotCreated)
        } else {
            None
        }
    }

    // The trap where an array of a right side is missing.
    fn unless_operands(&self, job: &Job, right: &Right) -> Option<TrapKind>
        ensures { (own : Own) → self.now.created ≡ own.created → result ≡ (if list_any (is_missing (setting_of job.now) own) (map (λ (b : BlockRef). b.array) (shared_in (setting_of job.now) right.now)) then Some TrapKind.NotCreated else None) }
    {
        let missing = match right {
            Right::One(a) => self.misses_operand(job, a),
            Right::Two(a, _, b) => self.misses_operand(job, a) || self.misses_operand(job, b),
        };
        if missing {
            Some(TrapKind::NotCreated)
        } else {
            None
        }
    }

    // Whether an operand's array is missing.
    fn misses_operand(&self, job: &Job, operand: &Operand) -> bool
        ensures { (own : Own) → self.now.created ≡ own.created → result ≡ list_any (is_missing (setting_of job.now) own) (map (λ (b : BlockRef). b.array) (shared_operand (setting_of job.now) operand.now)) }
    {
        match operand {
            Operand::Block(block) => self.misses(job, block.array),
            _ => false,
        }
    }

    // Whether an array is distributed and not created.
    fn misses(&self, job: &Job, array: u16) -> bool
        ensures { (own : Own) → self.now.created ≡ own.created → result ≡ is_missing (setting_of job.now) own array }
    {
        match job.array_kind(array) {
            ArrayKind::Distributed => !self.created(array),
            _ => false,
        }
    }

    /// The shared block that a `get`, `request`, `put` or `prepare` at the cursor names.
    pub fn named(&self, job: &Job) -> SharedBlock
        requires transfers { (p : Memory) × (work : AtWork (setting_of job.now) p self.now) × (block : BlockRef) × (transferred_next (next_of work.rest) ≡ Some block) }
        ensures { (p : Memory) → OfWorks (setting_of job.now) p self.now (λ rest own partials.
            IfSome (transferred_next (next_of rest)) (λ block. named_of result ≡ named (setting_of job.now) own block)) }
    {
        let _spaces = job.spaces();
        let instruction = job.instruction(self.control.at());
        match &instruction.operation {
            Operation::Get { block } => self.shared(job, block),
            Operation::Request { block } => self.shared(job, block),
            Operation::Put { block, .. } => self.shared(job, block),
            Operation::Prepare { block, .. } => self.shared(job, block),
            _ => unreachable!(),
        }
    }
}
