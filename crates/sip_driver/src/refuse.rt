//! The status and the line of a refusal.

ghost use Rattle.std.specs.Prelude.{◌≡◌, ◌≤◌};
ghost use Rattle.sip_driver.specs.Performed.{status_of, line_on};
ghost use Rattle.sip_driver.specs.Says.{Says};
ghost use Rattle.sip_grant.specs.Names.{named};

use crate::kinds::{input_told, shape_told, side_told};
use crate::say::{say, say_misfit, say_syntax, say_told, say_unread};
use crate::status::Status;
use sip_files::Sink;
use sip_grant::Refusal;

/// Writes the line of a refusal of these files, and gives its status.
pub fn refuse<K: Sink>(err: &mut K, program: &str, input: &str, refusal: &Refusal) -> Status
    ensures status { result.0 ≡ status_of refusal.now }
    ensures says { Says K.written K.faults err.old err.new (line_on (named program.now input.now) refusal.now) }
    ensures never_falls { K.faults err.old ≤ K.faults err.new }
    ensures kept { K.kept err.new ≡ K.kept err.old }
{
    match refusal {
        Refusal::NoProgram => {
            say_unread(err, program);
            Status::READ_FAULT
        }
        Refusal::NoTree(fault) => {
            say_syntax(err, *fault);
            Status::SYNTAX
        }
        Refusal::Shape(fault) => {
            say_told(err, b"sip: rule line ", shape_told(*fault));
            Status::RULE
        }
        Refusal::Sides(fault) => {
            say_told(err, b"sip: rule line ", side_told(*fault));
            Status::RULE
        }
        Refusal::NoInput => {
            say_unread(err, input);
            Status::READ_FAULT
        }
        Refusal::BadInput(fault) => {
            say_told(err, b"sip: input line ", input_told(*fault));
            Status::INPUT
        }
        Refusal::Unfit(fault) => {
            say_misfit(err, fault);
            Status::INPUT
        }
        Refusal::OutOfMemory => {
            say(err, b"sip: memory\n");
            Status::OUT_OF_MEMORY
        }
    }
}
