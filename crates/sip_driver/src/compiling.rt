//! `sip compile`: a program's table, and the line of what stops it.

ghost use Rattle.std.specs.Prelude.{◌≡◌, ◌≤◌};
ghost use Rattle.sip_compile.specs.Filing.{CountsFiles, WritesAlone};
ghost use Rattle.sip_files.specs.Loading.{Loading};
ghost use Rattle.sip_files.specs.Writing.{others_of};
ghost use Rattle.sip_driver.specs.Performed.{CompileAnswers};
ghost use Rattle.sip_driver.specs.Says.{Says};

use crate::refuse::refuse;
use crate::say::{say, say_unwritten};
use crate::status::Status;
use sip_compile::{CompileFault, compile_program};
use sip_files::{Files, Sink};
use std::alloc::Global;

/// Writes the table of a program, if it keeps the rules.
#[tactic(auto, using(crate::proofs::CompileLemmas::compile_done, crate::proofs::CompileLemmas::compile_refused, crate::proofs::CompileLemmas::compile_not_filed, crate::proofs::CompileLemmas::compile_starved))]
pub fn compile_command<F: Files, K: Sink>(
    alloc: Global,
    program: &str,
    table: &str,
    files: &mut F,
    err: &mut K,
) -> Status
    ensures answers { CompileAnswers (Loading F.load_gives F.told F.faults F.overlong) (WritesAlone F.faults F.overlong) F.told F.faults files.old files.new
        program.now table.now (Says K.written K.faults err.old err.new) result.0 }

    ensures others { others_of (F.told files.new) table.now ≡ others_of (F.told files.old) table.now }
    ensures counts { CountsFiles (F.faults files.old) (F.faults files.new) }
    ensures loans { F.loans files.new ≡ F.loans files.old }
    ensures err_never_falls { K.faults err.old ≤ K.faults err.new }
    ensures err_kept { K.kept err.new ≡ K.kept err.old }
{
    match compile_program(alloc, files, program, table) {
        Ok(()) => Status::DONE,
        Err(CompileFault::Refused(refusal)) => refuse(err, program, table, &refusal),
        Err(CompileFault::NotWritten) => {
            say_unwritten(err, table);
            Status::WRITE_FAULT
        }
        Err(CompileFault::OutOfMemory) => {
            say(err, b"sip: memory\n");
            Status::OUT_OF_MEMORY
        }
    }
}
