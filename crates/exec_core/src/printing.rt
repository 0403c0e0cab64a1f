//! Statements that print.

ghost use Rattle.std.specs.Prelude.{◌≡◌, ℕ, List};
ghost use Rattle.block_pool.specs.Memory.{Memory};
ghost use Rattle.exec_core.specs.Printing.{Does, Ends, IsPrinting};
ghost use Rattle.exec_core.specs.Runs.{AtWork};
ghost use Rattle.exec_core.specs.Stands.{OfWorks};
ghost use Rattle.sial_meaning.specs.LocalStep.{local_step};
ghost use Rattle.sial_meaning.specs.Next as next;
ghost use Rattle.sial_meaning.specs.Next.{next_of};
ghost use Rattle.sial_meaning.specs.Rest.{Rest};
ghost use Rattle.sial_meaning.specs.Setting.{Setting};
ghost use Rattle.sial_syntax.specs.Tree.{PrintScalar};
ghost use Rattle.sip_setting.specs.Seen.{setting_of};

use crate::local::Local;
use crate::printed::Printed;
use exec_job::Job;
use sial_meaning::{Trap, TrapKind};
use sip_tables::Operation;

impl Local {
    /// Does a `print` or `print_scalar` at the cursor.
    pub fn print(&mut self, job: &Job) -> Result<Printed, Trap>
        requires prints { (p : Memory) × (work : AtWork (setting_of job.now) p self.old) × IsPrinting (next_of work.rest) }
        ensures { (p : Memory) (values : List (List ℕ)) → OfWorks (setting_of job.now) p self.old (λ rest own partials.
            Does (setting_of job.now) p self.old self.new own partials values result (next_of rest)) }
    {
        let instruction = job.instruction(self.control.at());
        match &instruction.operation {
            Operation::Print { text } => {
                self.control.pass();
                Ok(Printed::Text { text: *text })
            }
            Operation::PrintScalar { scalar } => self.print_scalar(*scalar, instruction.line),
            _ => unreachable!(),
        }
    }

    // Prints a scalar's number, if it is set.
    fn print_scalar(&mut self, scalar: u16, line: u32) -> Result<Printed, Trap>
        ensures { (g : Setting) (p : Memory) (values : List (List ℕ)) (more : Rest) → OfWorks g p self.old (λ rest own partials.
            next_of rest ≡ next.Statement line (PrintScalar scalar) more
            → Ends g p self.old self.new line more (local_step g (PrintScalar scalar) values own partials) result) }
    {
        match self.scalars.get(scalar) {
            Some(value) => {
                self.control.pass();
                Ok(Printed::Scalar { scalar, value })
            }
            None => Err(Trap {
                kind: TrapKind::UnsetScalar,
                line,
            }),
        }
    }
}
