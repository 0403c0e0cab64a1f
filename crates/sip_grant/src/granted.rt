//! A program and its input, loaded one after the other.

ghost use Rattle.std.specs.Prelude.{◌≡◌, IfOk, IfErr};
ghost use Rattle.sip_files.specs.Files.{CountsOnly};
ghost use Rattle.sip_files.specs.Loading.{Loading};
ghost use Rattle.sip_files.specs.declared.call.Call.TheVariants.{Load};
ghost use Rattle.sip_grant.specs.Granting.{IsGrantedFor};
ghost use Rattle.sip_grant.specs.Names.{named};
ghost use Rattle.sip_grant.specs.Refusals.{ForProgram, ForTexts, Refuses, RefusesProgram};
ghost use Rattle.sip_grant.specs.Ruled.{IsRuled};

use crate::fitted::fitted;
use crate::refusal::Refusal;
use crate::ruled::{Ruled, read_ruled};
use crate::text::{TextFault, load_text};
use sip_files::Files;
use sip_setting::Granted;
use std::alloc::Global;

const MOST_PROGRAM: u64 = 16_777_216;

const MOST_INPUT: u64 = 1_048_576;

/// Loads a program, of at most 16 MiB, and, if it keeps the rules, its input, of at most 1 MiB.
pub fn load_granted<F: Files>(
    alloc: Global,
    files: &mut F,
    program: &str,
    input: &str,
) -> Result<Granted, Refusal>
    ensures granted { IfOk result (λ job. ForTexts (Loading F.load_gives F.told F.faults F.overlong)
        files.old files.new (named program.now input.now) (λ text given. IsGrantedFor text given job)) }
    ensures refused { IfErr result (Refuses (Loading F.load_gives F.told F.faults F.overlong)
        files.old files.new (named program.now input.now)) }

    ensures told { F.told files.new ≡ F.told files.old }
    ensures counts { CountsOnly Load (F.faults files.old) (F.faults files.new) }
    ensures loans { F.loans files.new ≡ F.loans files.old }
{
    let ruled = match load_program(alloc, files, program) {
        Ok(ruled) => ruled,
        Err(refusal) => return Err(refusal),
    };
    match load_text(alloc, files, input, MOST_INPUT) {
        Ok(text) => fitted(alloc, ruled, text.as_slice()),
        Err(TextFault::Unread) => Err(Refusal::NoInput),
        Err(TextFault::OutOfMemory) => Err(Refusal::OutOfMemory),
    }
}

/// Loads a program, of at most 16 MiB, if it keeps the rules.
#[tactic(auto, using(crate::proofs::LoadLemmas::refuses_program))]
pub fn load_program<F: Files>(alloc: Global, files: &mut F, program: &str) -> Result<Ruled, Refusal>
    ensures ruled { IfOk result (λ r. ForProgram (Loading F.load_gives F.told F.faults F.overlong)
        files.old files.new program.now (λ text. IsRuled text r)) }
    ensures refused { IfErr result (RefusesProgram (Loading F.load_gives F.told F.faults F.overlong)
        files.old files.new program.now) }

    ensures told { F.told files.new ≡ F.told files.old }
    ensures counts { CountsOnly Load (F.faults files.old) (F.faults files.new) }
    ensures loans { F.loans files.new ≡ F.loans files.old }
{
    match load_text(alloc, files, program, MOST_PROGRAM) {
        Ok(text) => read_ruled(alloc, text.as_slice()),
        Err(TextFault::Unread) => Err(Refusal::NoProgram),
        Err(TextFault::OutOfMemory) => Err(Refusal::OutOfMemory),
    }
}
