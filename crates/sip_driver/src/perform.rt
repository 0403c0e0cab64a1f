//! From the names of two files to a run of them.

ghost use Rattle.std.specs.Prelude.{◌≡◌, ◌≢◌, ◌≤◌, ℕ, List, IfOk};
ghost use Rattle.sip_files.specs.Files.{CountsOnly, Rose};
ghost use Rattle.sip_files.specs.Loading.{Loading};
ghost use Rattle.sip_files.specs.declared.call.Call.TheVariants.{Load};
ghost use Rattle.sip_grant.specs.Granting.{IsGrantedFor};
ghost use Rattle.sip_grant.specs.Names.{named};
ghost use Rattle.sip_driver.specs.Performed.{Performs, Runs};
ghost use Rattle.first_profile.specs.Ready.{IsReady};
ghost use Rattle.sip_setting.specs.Seen.{setting_of};

use crate::answer::Answer;
use first_profile::{RunFault, is_first_tree, run};
use sip_files::{Files, Sink};
use sip_grant::load_granted;
use sip_setting::Granted;
use std::alloc::Global;

/// Loads two files and runs them, if the rules grant them and the program is of the first profile.
#[tactic(auto, using(crate::proofs::PerformLemmas::performs))]
pub fn perform<F: Files, K: Sink>(
    alloc: Global,
    program: &str,
    input: &str,
    files: &mut F,
    out: &mut K,
) -> Answer
    ensures performs { Performs (Loading F.load_gives F.told F.faults F.overlong)
        files.old files.new (named program.now input.now) K.written K.faults out.old out.new result }

    ensures told { F.told files.new ≡ F.told files.old }
    ensures counts { CountsOnly Load (F.faults files.old) (F.faults files.new) }
    ensures loans { F.loans files.new ≡ F.loans files.old }
    ensures never_falls { K.faults out.old ≤ K.faults out.new }
    ensures kept { K.kept out.new ≡ K.kept out.old }
{
    match load_granted(alloc, files, program, input) {
        Ok(granted) => run_granted(alloc, &granted, out),
        Err(refusal) => Answer::Refused(refusal),
    }
}

// Runs a program that was granted, if it is of the first profile.
fn run_granted<K: Sink>(alloc: Global, granted: &Granted, out: &mut K) -> Answer
    requires { IsReady (setting_of granted.now) }
    ensures runs { Runs granted.now K.written K.faults out.old out.new result }
    ensures never_falls { K.faults out.old ≤ K.faults out.new }
    ensures kept { K.kept out.new ≡ K.kept out.old }
{
    if !is_first_tree(&granted.program) {
        return Answer::NotFirst;
    }
    match run(alloc, granted, out) {
        Ok(()) => Answer::Done,
        Err(RunFault::NotWritten) => Answer::NotWritten,
        Err(RunFault::OutOfMemory) => Answer::OutOfMemory,
    }
}
