//! Loops.

ghost use Rattle.std.specs.Prelude.{◌≡◌, ℕ, ◌+◌, ◌^◌, ◌<◌, ◌≤◌, true, false, nat_lt, suc, length, slice_index_or, Ok};
ghost use Rattle.sial_meaning.specs.Control.{control};
ghost use Rattle.sial_meaning.specs.Next.{next_of};
ghost use Rattle.sial_meaning.specs.Own.{Own};
ghost use Rattle.sial_meaning.specs.Rest.{Rest};
ghost use Rattle.code_places.specs.Items.{IsTurn};
ghost use Rattle.sip_setting.specs.Seen.{setting_of};
ghost use Rattle.exec_control.specs.Moves.{begun, bound_at, left};
ghost use Rattle.exec_control.specs.Position.{innermost};
ghost use Rattle.exec_control.specs.Stands.{ControlStands, IsLed};

use crate::control::{Control, behind};
use exec_job::Job;
use sip_tables::Operation;

impl Control {
    /// Begins a loop, or goes past it where it has no number.
    pub(crate) fn enter(&mut self, index: u16, first: u32, count: u32, past: u32)
        requires declared { index < length self.old.values }
        requires room { length self.old.lasts < 544 }
        requires short { first + count ≤ 2 ^ 32 }
        ensures none { count ≡ 0 → self.new ≡ bound_at past index 0 self.old }
        ensures some { (n : ℕ) → count ≡ suc n → self.old.at + 1 < 2 ^ 32
            → self.new ≡ begun (self.old.at + 1) index first (first + n) self.old }
    {
        if count == 0 {
            self.at = past;
            self.numbers.bind(index, 0);
        } else {
            self.at = behind(self.at);
            self.numbers.bind(index, first);
            self.lasts.push(first + (count - 1));
        }
    }

    /// The end of a loop's body, whose head is at an instruction.
    pub(crate) fn end_turn(&mut self, job: &Job, head: u32)
        requires stands { (rest : Rest) × (own : Own) × ControlStands (setting_of job.now) self.old rest own
            × IsTurn (setting_of job.now).program rest head }
        ensures does { (rest : Rest) (own : Own) → ControlStands (setting_of job.now) self.old rest own
            → IsTurn (setting_of job.now).program rest head
            → IsLed (setting_of job.now) self.old self.new (next_of rest) own (control (setting_of job.now) rest own) (Ok tt) }
    {
        match &job.instruction(head).operation {
            Operation::Do { index, past } => self.turn(*index, head, *past),
            Operation::DoIn { sub, past, .. } => self.turn(*sub, head, *past),
            _ => {}
        }
    }

    // Goes on to the next number of the last loop that began, or leaves the loop behind its last one.
    fn turn(&mut self, index: u16, head: u32, past: u32)
        requires declared { index < length self.old.values }
        ensures on { nat_lt (slice_index_or self.old.values index 0) (innermost self.old.lasts) ≡ true
            → head + 1 < 2 ^ 32 → self.new ≡ bound_at (head + 1) index (slice_index_or self.old.values index 0 + 1) self.old }
        ensures over { nat_lt (slice_index_or self.old.values index 0) (innermost self.old.lasts) ≡ false
            → self.new ≡ left past index self.old }
    {
        let number = self.values()[index as usize];
        if number < self.innermost() {
            self.at = behind(head);
            self.numbers.bind(index, number + 1);
        } else {
            self.at = past;
            self.numbers.bind(index, 0);
            let _ = self.lasts.pop();
        }
    }

    // The last number of the last loop that began.
    fn innermost(&self) -> u32
        ensures { result ≡ innermost self.now.lasts }
    {
        self.lasts.as_slice().last().copied().unwrap_or(0)
    }
}
