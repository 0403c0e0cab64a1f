//! Past a statement that was done.

ghost use Rattle.std.specs.Prelude.{◌≡◌, Ok, Err, IfErr};
ghost use Rattle.exec_control.specs.Stands.{ControlStands, Passes};
ghost use Rattle.sial_meaning.specs.Next.{next_of};
ghost use Rattle.sial_meaning.specs.Own.{Own};
ghost use Rattle.sial_meaning.specs.Rest.{Rest};
ghost use Rattle.sial_meaning.specs.Setting.{Setting};
ghost use Rattle.sial_meaning.specs.Statement.{trap_at};

use crate::printed::Printed;
use exec_control::Control;
use sial_meaning::{Trap, TrapKind};

/// Goes past a statement that was done and printed nothing; its trap leaves the cursor where it was.
pub fn past(control: &mut Control, line: u32, done: Result<(), TrapKind>) -> Result<Printed, Trap>
    ensures passes { done ≡ Ok tt → (g : Setting) (rest : Rest) (own held : Own) → ControlStands g control.old rest own → held.values ≡ own.values
        → Passes g control.new held (next_of rest) }
    ensures ok { done ≡ Ok tt → result ≡ Ok Printed.Nothing }
    ensures err { IfErr done (λ kind. (control.new ≡ control.old) × (result ≡ Err (trap_at line kind))) }
{
    match done {
        Ok(()) => {
            control.pass();
            Ok(Printed::Nothing)
        }
        Err(kind) => Err(Trap { kind, line }),
    }
}
