//! What is open, and which ends are still to come, while code is gone through.

ghost use Rattle.std.specs.Prelude.{◌≡◌, [], IfOk};
ghost use Rattle.table_verify.specs.Nesting as spec;
ghost use Rattle.table_verify.specs.NestSeen.{Goes, seen};
ghost use Rattle.table_verify.specs.Outline.{mark};

use crate::opener::{Opener, Opens, is_branch, is_first, is_loop, is_pardo};
use sip_tables::{Instruction, Operation};
use std::alloc::{AllocError, Global};
use std::collections::VecDeque;

const MOST_NESTING: usize = 32;

/// What is open, innermost first; whether conditions may follow; whether the program's stop is still to come, and how many returns.
#[derive(Drop)]
pub struct Nest {
    stack: VecDeque<Opener>,
    heading: bool,
    stop: bool,
    returns: usize,
}

/// No instruction has been read yet, of code with so many procedures.
pub fn start(alloc: Global, procedures: usize) -> Nest
    ensures { seen result ≡ spec.start procedures }
{
    Nest {
        stack: VecDeque::new(alloc),
        heading: false,
        stop: true,
        returns: procedures,
    }
}

impl Nest {
    /// Whether an instruction may stand here; what is open behind it.
    pub fn step(&mut self, instruction: &Instruction) -> Result<bool, AllocError>
        ensures { IfOk result (λ fits. Goes fits (spec.step (mark instruction.now) (seen self.old)) (seen self.new)) }
    {
        let line = instruction.line;
        match &instruction.operation {
            Operation::Stop => Ok(self.stops(line)),
            Operation::Return => Ok(self.returns(line)),
            Operation::Do { .. } | Operation::DoIn { .. } => self.opens(Opens::Loop, line),
            Operation::Pardo { .. } => self.opens(Opens::Pardo, line),
            Operation::If { .. } => self.opens(Opens::First, line),
            Operation::Where { .. } => Ok(self.tests(line)),
            Operation::Else { .. } => Ok(self.turns(line)),
            Operation::EndDo { .. } => Ok(self.ends_loop(line)),
            Operation::EndPardo { .. } => Ok(self.ends_pardo(line)),
            Operation::EndIf => Ok(self.ends_branch(line)),
            _ => Ok(self.stands()),
        }
    }

    /// Whether all is ended.
    pub fn is_over(&self) -> bool
        ensures { result ≡ spec.is_over (seen self.now) }
    {
        self.is_closed() && !self.is_alive()
    }

    // Whether nothing is open.
    fn is_closed(&self) -> bool
        ensures { result ≡ spec.is_closed (seen self.now).stack }
    {
        self.stack.front().is_none()
    }

    // Whether a body is still to be ended.
    fn is_alive(&self) -> bool
        ensures { result ≡ spec.is_alive (seen self.now) }
    {
        self.stop || 0 < self.returns
    }

    // A whole statement.
    fn stands(&mut self) -> bool
        ensures { Goes result (spec.where_so (spec.is_alive (seen self.old)) (spec.calm (seen self.old))) (seen self.new) }
    {
        self.heading = false;
        self.is_alive()
    }

    // A statement that is open from here on.
    fn opens(&mut self, opens: Opens, line: u32) -> Result<bool, AllocError>
        ensures { IfOk result (λ fits. Goes fits (spec.opened opens line (seen self.old)) (seen self.new)) }
    {
        if self.is_alive() && self.stack.len() < MOST_NESTING {
            self.stack.push_front(Opener { opens, line })?;
            self.heading = is_pardo(opens);
            Ok(true)
        } else {
            Ok(false)
        }
    }

    // A condition of the innermost pardo.
    fn tests(&mut self, line: u32) -> bool
        ensures { Goes result (spec.tested_in line (seen self.old) (seen self.old).stack) (seen self.new) }
    {
        match self.stack.front() {
            Some(opener) => self.heading && is_pardo(opener.opens) && opener.line == line,
            None => false,
        }
    }

    // The other branch begins.
    fn turns(&mut self, line: u32) -> bool
        ensures { Goes result (spec.turned_in line (seen self.old) (seen self.old).stack) (seen self.new) }
    {
        self.heading = false;
        match self.stack.front_mut() {
            Some(opener) if is_first(opener.opens) && opener.line == line => {
                opener.opens = Opens::Second;
                true
            }
            _ => false,
        }
    }

    // The innermost loop ends.
    fn ends_loop(&mut self, line: u32) -> bool
        ensures { Goes result (spec.closed spec.is_loop line (seen self.old)) (seen self.new) }
    {
        self.heading = false;
        match self.stack.pop_front() {
            Some(opener) => is_loop(opener.opens) && opener.line == line,
            None => false,
        }
    }

    // The innermost pardo ends.
    fn ends_pardo(&mut self, line: u32) -> bool
        ensures { Goes result (spec.closed spec.is_pardo line (seen self.old)) (seen self.new) }
    {
        self.heading = false;
        match self.stack.pop_front() {
            Some(opener) => is_pardo(opener.opens) && opener.line == line,
            None => false,
        }
    }

    // The innermost `if` ends.
    fn ends_branch(&mut self, line: u32) -> bool
        ensures { Goes result (spec.closed spec.is_branch line (seen self.old)) (seen self.new) }
    {
        self.heading = false;
        match self.stack.pop_front() {
            Some(opener) => is_branch(opener.opens) && opener.line == line,
            None => false,
        }
    }

    // The program ends.
    fn stops(&mut self, line: u32) -> bool
        ensures { Goes result (spec.stopped line (seen self.old)) (seen self.new) }
    {
        let fits = self.is_closed() && self.stop && line == 0;
        self.heading = false;
        self.stop = false;
        fits
    }

    // A procedure ends.
    fn returns(&mut self, line: u32) -> bool
        ensures { Goes result (spec.returned_of line (seen self.old) (seen self.old).returns) (seen self.new) }
    {
        self.heading = false;
        if 0 < self.returns {
            self.returns -= 1;
            self.is_closed() && !self.stop && line == 0
        } else {
            false
        }
    }
}
