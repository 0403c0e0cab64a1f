//! Jumps, compared with what they should be at the end of each statement.

ghost use Rattle.std.specs.Prelude.{◌≡◌, ◌<◌, ◌^◌, ◌==◌, [], ◌∷◌, ◌++◌, if◌then◌else◌, IfNone, None, OnOk, Some, option_to_list};
ghost use Rattle.table_verify.specs.Jumping as spec;

use sip_tables::Operation;
use std::alloc::{AllocError, Global};
use std::collections::VecDeque;

/// The head of a statement or branch that is open: its number, and how many instructions there are up to the end that its jump tells of.
#[derive(Clone, Copy)]
pub struct Head {
    pub at: usize,
    pub reach: usize,
}

/// The heads that are open, innermost first, and the first instruction so far whose jump is wrong.
#[derive(Drop)]
pub struct Walk {
    pub heads: VecDeque<Head>,
    pub wrong: Option<usize>,
}

/// Nothing is open yet, and no jump wrong.
pub fn start(alloc: Global) -> Walk
    ensures heads { result.heads.items ≡ [] }
    ensures wrong { result.wrong ≡ None }
{
    Walk {
        heads: VecDeque::new(alloc),
        wrong: None,
    }
}

impl Walk {
    /// What an instruction opens and closes.
    pub fn step(&mut self, at: usize, operation: &Operation) -> Result<(), AllocError>
        requires { at < 2 ^ 63 }
        ensures heads { OnOk result (self.new.heads.items ≡ spec.heads_after at operation.now self.old.heads.items) }
        ensures wrong { OnOk result (self.new.wrong ≡ spec.first_wrong self.old.wrong (spec.compared at operation.now self.old.heads.items)) }
    {
        match operation {
            Operation::Do { past, .. } | Operation::DoIn { past, .. } => {
                self.opens(at, *past as usize)
            }
            Operation::If { otherwise, .. } => self.opens(at, *otherwise as usize),
            Operation::Pardo { end, .. } => self.opens(at, *end as usize + 1),
            Operation::Else { past } => self.turns(at, *past as usize),
            Operation::EndDo { head } | Operation::EndPardo { head } => {
                self.ends(at, *head as usize);
                Ok(())
            }
            Operation::EndIf => {
                self.closes(at);
                Ok(())
            }
            _ => Ok(()),
        }
    }

    // A statement that is open from here on.
    fn opens(&mut self, at: usize, reach: usize) -> Result<(), AllocError>
        ensures heads { OnOk result (self.new.heads.items ≡ spec.head at reach ∷ self.old.heads.items) }
        ensures wrong { self.new.wrong ≡ self.old.wrong }
    {
        self.heads.push_front(Head { at, reach })?;
        Ok(())
    }

    // The innermost statement or branch ends here, if one is open; gives its head.
    fn closes(&mut self, at: usize) -> Option<Head>
        requires { at < 2 ^ 63 }
        ensures head { self.old.heads.items ≡ option_to_list result ++ self.new.heads.items }
        ensures none { IfNone result (self.old.heads.items ≡ []) }
        ensures wrong { self.new.wrong ≡ spec.first_wrong self.old.wrong (spec.closed at self.old.heads.items) }
    {
        let head = self.heads.pop_front()?;
        self.compares(head.at, head.reach, at + 1);
        Some(head)
    }

    // The other branch begins, where there is a first one.
    fn turns(&mut self, at: usize, past: usize) -> Result<(), AllocError>
        requires { at < 2 ^ 63 }
        ensures heads { OnOk result (self.new.heads.items ≡ spec.turned at past self.old.heads.items) }
        ensures wrong { OnOk result (self.new.wrong ≡ spec.first_wrong self.old.wrong (spec.closed at self.old.heads.items)) }
    {
        match self.closes(at) {
            Some(_) => self.opens(at, past),
            None => Ok(()),
        }
    }

    // A loop or a pardo ends here, and jumps to its head.
    fn ends(&mut self, at: usize, to: usize)
        requires { at < 2 ^ 63 }
        ensures heads { self.new.heads.items ≡ spec.around self.old.heads.items }
        ensures wrong { self.new.wrong ≡ spec.first_wrong self.old.wrong (spec.looped at to self.old.heads.items) }
    {
        if let Some(head) = self.closes(at) {
            self.compares(at, to, head.at);
        }
    }

    // An instruction reaches so far, and should reach as far as that.
    fn compares(&mut self, at: usize, written: usize, right: usize)
        ensures heads { self.new.heads ≡ self.old.heads }
        ensures wrong { self.new.wrong ≡ (if written == right then self.old.wrong else Some (spec.lesser at self.old.wrong)) }
    {
        if written != right {
            self.wrong = match self.wrong {
                Some(before) if before < at => Some(before),
                _ => Some(at),
            };
        }
    }
}
