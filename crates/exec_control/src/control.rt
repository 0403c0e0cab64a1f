//! Where a worker is in its program.

ghost use Rattle.std.specs.Prelude.{◌≡◌, ◌+◌, ◌^◌, ◌<◌, length, Ok, IfOk};
ghost use Rattle.sial_meaning.specs.Control.{control};
ghost use Rattle.sial_meaning.specs.Meaning.{condition};
ghost use Rattle.sial_meaning.specs.Next.{next_of};
ghost use Rattle.sial_meaning.specs.Own.{Own, start_own};
ghost use Rattle.sial_meaning.specs.Rest.{Rest};
ghost use Rattle.sial_meaning.specs.Setting.{Setting};
ghost use Rattle.sial_meaning.specs.Sound.{IsSound};
ghost use Rattle.sial_meaning.specs.Step.{start_work};
ghost use Rattle.code_places.specs.Standing.{HasAt};
ghost use Rattle.sip_setting.specs.Seen.{setting_of};
ghost use Rattle.exec_control.specs.Moves.{IsBranched};
ghost use Rattle.exec_control.specs.Needs.{MayGo};
ghost use Rattle.exec_control.specs.Position.{at_start};
ghost use Rattle.exec_control.specs.Stands.{ControlStands, IsControl, IsFollowed, IsLed, Passes};

use crate::numbers::Numbers;
use arrayvec::ArrayVec;
use exec_job::Job;
use exec_scalars::Scalars;
use sial_meaning::Trap;
use sial_syntax::Cond;
use sip_files::OutOfMemory;
use sip_tables::{Instruction, Operation};
use std::alloc::Global;
use std::marker::Model;

/// The instruction that comes next, the number of each index, and the calls and loops in progress. No call after `open`
/// takes memory.
#[derive(Drop)]
pub struct Control {
    pub(crate) at: u32,
    pub(crate) numbers: Numbers,
    // where the calls in progress return
    pub(crate) returns: ArrayVec<u32, 16>,
    // the last number of each loop in progress: at most 32 in each of 17 procedures under way
    pub(crate) lasts: ArrayVec<u32, 544>,
}

impl Model for Control {
    ghost use Rattle.exec_control.specs.Position.{Position};

    ghost Value = { Position };

    ghost view = { λ c. record { at = c.at; values = c.numbers.values; returns = c.returns.items; saved = c.numbers.saved; lasts = c.lasts.items } };
}

impl Control {
    /// Before the first instruction: no index is bound, and no call or loop in progress.
    pub fn open(alloc: Global, job: &Job) -> Result<Control, OutOfMemory>
        ensures value { IfOk result (λ c. c ≡ at_start (length (setting_of job.now).program.indices)) }

        // Each job's setting is sound, as `Job::spaces` says.
        ensures starts { IsSound (setting_of job.now)
            → IfOk result (λ c. ControlStands (setting_of job.now) c (start_work (setting_of job.now)).rest (start_own (setting_of job.now))) }
    {
        if job.code_len() > u32::MAX as usize {
            return Err(OutOfMemory);
        }
        let numbers = Numbers::open(alloc, job.indices_len())?;
        Ok(Control {
            at: 0,
            numbers,
            returns: ArrayVec::new(),
            lasts: ArrayVec::new(),
        })
    }

    /// The number of the instruction that comes next.
    pub fn at(&self) -> u32
        ensures { result ≡ self.now.at }
    {
        self.at
    }

    /// The number of each index, 0 where it isn't bound.
    pub fn values(&self) -> &[u32]
        ensures { result.now ≡ self.now.values }
    {
        self.numbers.values()
    }

    /// Goes past a statement that holds no other.
    pub fn pass(&mut self)
        ensures passes { (g : Setting) (rest : Rest) (own held : Own) → ControlStands g self.old rest own
            → held.values ≡ own.values → Passes g self.new held (next_of rest) }
    {
        self.at = behind(self.at);
    }

    /// Does a loop, a branch, a call, their ends, or the head of a pardo.
    pub fn go(&mut self, job: &Job, scalars: &Scalars) -> Result<(), Trap>
        requires may_go { MayGo (setting_of job.now) self.old }
        ensures does { (rest : Rest) (own : Own) → ControlStands (setting_of job.now) self.old rest own
            → own.scalars ≡ scalars.now.scalars → IsControl (next_of rest)
            → IsLed (setting_of job.now) self.old self.new (next_of rest) own (control (setting_of job.now) rest own) result }
    {
        let instruction = job.instruction(self.at);
        match &instruction.operation {
            Operation::If { cond, otherwise } => {
                self.branch(scalars, instruction.line, cond, *otherwise)
            }
            _ => {
                self.follow(job, instruction);
                Ok(())
            }
        }
    }

    // Does a loop, a call, the end of a loop, a branch or a call, or the head of a pardo.
    fn follow(&mut self, job: &Job, instruction: &Instruction)
        requires may_go { MayGo (setting_of job.now) self.old }
        requires at { HasAt (setting_of job.now).program self.old.at instruction.now }
        ensures does { (rest : Rest) (own : Own) → ControlStands (setting_of job.now) self.old rest own
            → IsControl (next_of rest) → IsFollowed instruction.now.operation
            → IsLed (setting_of job.now) self.old self.new (next_of rest) own (control (setting_of job.now) rest own) (Ok tt) }
    {
        match &instruction.operation {
            Operation::Do { index, past } => {
                let (first, count) = job.spaces().range(*index);
                self.enter(*index, first, count, *past);
            }
            Operation::DoIn { sub, index, past } => {
                let count = job.spaces().pieces(*sub, self.values()[*index as usize]);
                self.enter(*sub, 1, count, *past);
            }
            Operation::EndDo { head } => self.end_turn(job, *head),
            Operation::Else { past } => self.at = *past,
            Operation::EndIf => self.at = behind(self.at),
            Operation::Pardo { end, .. } => self.at = *end,
            Operation::Call { entry, .. } => self.call(*entry),
            Operation::Return => self.back(),
            _ => {}
        }
    }

    // Takes a branch by its condition.
    fn branch(
        &mut self,
        scalars: &Scalars,
        line: u32,
        cond: &Cond,
        otherwise: u32,
    ) -> Result<(), Trap>
        ensures { (own : Own) → own.scalars ≡ scalars.now.scalars → own.values ≡ self.old.values
            → IsBranched self.old self.new line otherwise (condition own cond.now) result }
    {
        match scalars.condition(self.values(), cond) {
            Ok(true) => {
                self.at = behind(self.at);
                Ok(())
            }
            Ok(false) => {
                self.at = otherwise;
                Ok(())
            }
            Err(kind) => Err(Trap { kind, line }),
        }
    }
}

/// The number of the instruction behind one that isn't the last of all.
pub fn behind(at: u32) -> u32
    ensures { at + 1 < 2 ^ 32 → result ≡ at + 1 }
{
    at.wrapping_add(1)
}
