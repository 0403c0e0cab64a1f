//! A program with its input, if they fit.

ghost use Rattle.std.specs.Prelude.{◌≡◌, ◌^◌, ◌<◌, Option, length, IfOk, IfErr};
ghost use Rattle.index_spaces.specs.Refusing.{refusal, IsCause};
ghost use Rattle.index_spaces.specs.declared.fault.SpaceFault.{SpaceFault};
ghost use Rattle.input_text.specs.Texts.{IsInputOf};
ghost use Rattle.sial_syntax.specs.Sides.{scalar_classes};
ghost use Rattle.sial_syntax.specs.Tree.{tree};
ghost use Rattle.sip_grant.specs.Ruled.{IsKept, IsBadInput, IsMisfit, BlamesInput};
ghost use Rattle.sip_input.specs.Given.{IsInput};
ghost use Rattle.sip_input.specs.declared.input.Input.{Input};
ghost use Rattle.sip_setting.specs.Seen.{IsGrantedBy};

use crate::refusal::Refusal;
use crate::ruled::Ruled;
use index_spaces::{SpaceFault, SpaceKind, resolve};
use input_text::{InputFault, read_input};
use sip_input::Input;
use sip_setting::Granted;
use std::alloc::Global;

/// A program with the input of a text, if they fit.
#[tactic(auto, using(crate::proofs::FittedLemmas::blames_bad))]
pub fn fitted(alloc: Global, ruled: Ruled, text: &[u8]) -> Result<Granted, Refusal>
    requires kept { IsKept ruled }
    requires short { length text.now < 2 ^ 31 }
    ensures program { IfOk result (λ job. tree job.program ≡ tree ruled.program) }
    ensures granted { IfOk result (λ job. (given : Input) × IsInputOf text.now given × IsGrantedBy given job) }
    ensures blames { IfErr result (BlamesInput (tree ruled.program) text.now) }
{
    match input_of(alloc, text) {
        Ok(input) => fit(alloc, ruled, &input),
        Err(refusal) => Err(refusal),
    }
}

// The input of a text.
#[tactic(auto, using(crate::proofs::FittedLemmas::input_fault_is))]
fn input_of(alloc: Global, text: &[u8]) -> Result<Input, Refusal>
    requires short { length text.now < 2 ^ 31 }
    ensures found { IfOk result (IsInputOf text.now) }
    ensures proper { IfOk result IsInput }
    ensures blames { IfErr result (IsBadInput text.now) }
{
    match read_input(alloc, text) {
        Ok(input) => Ok(input),
        Err(InputFault::OutOfMemory) => Err(Refusal::OutOfMemory),
        Err(fault) => Err(Refusal::BadInput(fault)),
    }
}

// A program with an input, if they fit.
#[tactic(auto, using(crate::proofs::FittedLemmas::is_granted, crate::proofs::FittedLemmas::misfit_is))]
fn fit(alloc: Global, ruled: Ruled, input: &Input) -> Result<Granted, Refusal>
    requires kept { IsKept ruled }
    requires input { IsInput input.now }
    ensures program { IfOk result (λ job. tree job.program ≡ tree ruled.program) }
    ensures granted { IfOk result (IsGrantedBy input.now) }
    ensures misfit { IfErr result (IsMisfit (refusal (tree ruled.program) (scalar_classes (tree ruled.program)) input.now)) }
{
    let Ruled { program, classes } = ruled;
    match resolve(alloc, &program, &classes, input) {
        Ok((spaces, start)) => Ok(Granted {
            program,
            classes,
            spaces,
            start,
        }),
        Err(fault) => Err(misfit(fault)),
    }
}

// What a program and an input that don't fit are refused for.
fn misfit(fault: SpaceFault) -> Refusal
    ensures { (refused : Option SpaceFault) → IsCause refused fault → IsMisfit refused result }
{
    match fault.kind {
        SpaceKind::OutOfMemory => Refusal::OutOfMemory,
        _ => Refusal::Unfit(fault),
    }
}
