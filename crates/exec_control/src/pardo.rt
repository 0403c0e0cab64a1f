//! A pardo in progress.

ghost use Rattle.std.specs.Prelude.{◌≡◌, ℕ, ◌<◌, ◌≤◌, ◌-◌, ◌^◌, min, All, length};
ghost use Rattle.sial_meaning.specs.Control.{taken};
ghost use Rattle.sial_meaning.specs.Own.{Own, unset};
ghost use Rattle.sial_meaning.specs.Rest.{PardoAt, Rest, Within};
ghost use Rattle.sial_syntax.specs.Boxes.{volume};
ghost use Rattle.sial_syntax.specs.Spaces.{box_of, numbers_at};
ghost use Rattle.code_places.specs.Follows.{PardoStands};
ghost use Rattle.sip_setting.specs.Seen.{setting_of};
ghost use Rattle.exec_control.specs.Moves.{all_set};
ghost use Rattle.exec_control.specs.Needs.{IsAtPardoEnd, MayTakeUp};
ghost use Rattle.exec_control.specs.Stands.{ControlStands, IsLeft, IsTakenUp};

use crate::control::{Control, behind};
use crate::wheres::body_if_met;
use exec_job::Job;
use exec_scalars::Scalars;
use index_spaces::Spaces;
use sip_tables::Operation;

impl Control {
    /// How many tuples the box has of the pardo at whose end the cursor is.
    pub fn tuples(&self, job: &Job) -> u64
        requires at_end { IsAtPardoEnd (setting_of job.now) self.now }
        ensures { (pardo : PardoAt) (last : ℕ) (more : Rest) (own : Own)
            → ControlStands (setting_of job.now) self.now (Within pardo last more) own
            → result ≡ min (volume (box_of (setting_of job.now).spaces pardo.indices)) (2 ^ 64 - 1) }
    {
        let (_, indices) = head_of(job, self.at);
        job.spaces().box_len(indices)
    }

    /// Binds the indices of the pardo at whose end the cursor is to the tuple at a place of its box, and tells whether its
    /// `where` lines hold. Then the cursor goes to its body, else it stays. The scalars are those behind the unsetting of
    /// all that an iteration begins without.
    pub fn take_up(&mut self, job: &Job, scalars: &Scalars, number: u64) -> bool
        requires may_take_up { MayTakeUp (setting_of job.now) self.old number }
        ensures does { (pardo : PardoAt) (last : ℕ) (more : Rest) (own : Own)
            → ControlStands (setting_of job.now) self.old (Within pardo last more) own
            → (unset (setting_of job.now) own).scalars ≡ scalars.now.scalars
            → IsTakenUp (setting_of job.now) self.new pardo own (taken (setting_of job.now) pardo number more own) result }
    {
        let (head, indices) = head_of(job, self.at);
        self.bind_tuple(job.spaces(), indices, number);
        match body_if_met(job, scalars, self.values(), behind(head), self.at) {
            Some(first) => {
                self.at = first;
                true
            }
            None => false,
        }
    }

    /// Leaves the pardo at whose end the cursor is.
    pub fn leave(&mut self, job: &Job)
        requires at_end { IsAtPardoEnd (setting_of job.now) self.old }
        ensures does { (pardo : PardoAt) (last : ℕ) (more : Rest) (own : Own)
            → ControlStands (setting_of job.now) self.old (Within pardo last more) own
            → IsLeft (setting_of job.now) self.new pardo more own }
    {
        let (_, indices) = head_of(job, self.at);
        self.numbers.unbind_all(indices);
        self.at = behind(self.at);
    }

    // Binds indices to the tuple at a place of their box.
    fn bind_tuple(&mut self, spaces: &Spaces, indices: &[u16], number: u64)
        requires few { length indices.now ≤ 12 }
        requires within { number < volume (box_of spaces.now.spaces indices.now) }
        requires declared { All (λ i. i < length self.old.values) indices.now }
        ensures { self.new ≡ record {
          at = self.old.at;
          values = all_set indices.now (numbers_at spaces.now.spaces indices.now number) self.old.values;
          returns = self.old.returns;
          saved = self.old.saved;
          lasts = self.old.lasts;
        } }
    {
        let mut tuple = [0u32; 12];
        let tuple = &mut tuple[..indices.len()];
        spaces.tuple_at(indices, number, tuple);
        self.numbers.bind_all(indices, tuple);
    }
}

// The head of a pardo whose end is at an instruction, and its indices.
fn head_of(job: &Job, end: u32) -> (u32, &[u16])
    requires stands { (pardo : PardoAt) × PardoStands (setting_of job.now).program pardo × (end ≡ pardo.at) }
    ensures { (pardo : PardoAt) → PardoStands (setting_of job.now).program pardo → end ≡ pardo.at
        → (result.0 ≡ pardo.head) × (result.1.now ≡ pardo.indices) }
{
    match &job.instruction(end).operation {
        Operation::EndPardo { head } => (*head, indices_of(job, *head)),
        _ => (end, &[]),
    }
}

// The indices of a pardo whose head is at an instruction.
fn indices_of(job: &Job, head: u32) -> &[u16]
    requires stands { (pardo : PardoAt) × PardoStands (setting_of job.now).program pardo × (head ≡ pardo.head) }
    ensures { (pardo : PardoAt) → PardoStands (setting_of job.now).program pardo → head ≡ pardo.head → result.now ≡ pardo.indices }
{
    match &job.instruction(head).operation {
        Operation::Pardo { indices, .. } => indices.as_slice(),
        _ => &[],
    }
}
