//! `sip run`: a run, and the line of what stops it.

ghost use Rattle.std.specs.Prelude.{◌≡◌, ◌≤◌};
ghost use Rattle.sip_files.specs.Files.{CountsOnly};
ghost use Rattle.sip_files.specs.Loading.{Loading};
ghost use Rattle.sip_files.specs.declared.call.Call.TheVariants.{Load};
ghost use Rattle.sip_grant.specs.Names.{named};
ghost use Rattle.sip_driver.specs.Performed.{RunAnswers};
ghost use Rattle.sip_driver.specs.Says.{Says};

use crate::answer::Answer;
use crate::perform::perform;
use crate::refuse::refuse;
use crate::say::say;
use crate::status::Status;
use sip_files::{Files, Sink};
use std::alloc::Global;

/// Runs a program over an input, if the rules grant both and the program is of the first profile.
#[tactic(auto, using(crate::proofs::RunLemmas::run_done, crate::proofs::RunLemmas::run_not_first, crate::proofs::RunLemmas::run_not_written, crate::proofs::RunLemmas::run_starved, crate::proofs::RunLemmas::run_refused))]
pub fn run_command<F: Files, K: Sink>(
    alloc: Global,
    program: &str,
    input: &str,
    files: &mut F,
    out: &mut K,
    err: &mut K,
) -> Status
    ensures answers { RunAnswers (Loading F.load_gives F.told F.faults F.overlong) (F.told files.old) files.old files.new
        (named program.now input.now) K.written K.faults out.old out.new (Says K.written K.faults err.old err.new) result.0 }

    ensures told { F.told files.new ≡ F.told files.old }
    ensures counts { CountsOnly Load (F.faults files.old) (F.faults files.new) }
    ensures loans { F.loans files.new ≡ F.loans files.old }
    ensures out_never_falls { K.faults out.old ≤ K.faults out.new }
    ensures out_kept { K.kept out.new ≡ K.kept out.old }
    ensures err_never_falls { K.faults err.old ≤ K.faults err.new }
    ensures err_kept { K.kept err.new ≡ K.kept err.old }
{
    match perform(alloc, program, input, files, out) {
        Answer::Done => Status::DONE,
        Answer::Refused(refusal) => refuse(err, program, input, &refusal),
        Answer::NotFirst => {
            say(err, b"sip: syntax line 0: FirstPath\n");
            Status::SYNTAX
        }
        Answer::NotWritten => {
            say(err, b"sip: write output\n");
            Status::WRITE_FAULT
        }
        Answer::OutOfMemory => {
            say(err, b"sip: memory\n");
            Status::OUT_OF_MEMORY
        }
    }
}
