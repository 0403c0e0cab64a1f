//! The spaces and the start values of a program and an input.

ghost use Rattle.std.specs.Prelude.{◌≡◌, ◌≤◌, ◌^◌, [], length, None, map, IfOk, IfErr, OnOk};
ghost use Rattle.sial_syntax.specs.Resolved.{AreSpacesBy};
ghost use Rattle.sial_syntax.specs.Tree.{tree};
ghost use Rattle.sip_input.specs.Given.{IsInput, constants_of};
ghost use Rattle.index_spaces.specs.Found.{seen};
ghost use Rattle.index_spaces.specs.Given.{blocks_given, numbers_given, placed_by, spaces_by};
ghost use Rattle.index_spaces.specs.Refusing.{IsCause, arrays_refusal, block_refusal, refusal, refusal_by, soonest};
ghost use Rattle.index_spaces.specs.Placed.{bare};
ghost use Rattle.index_spaces.specs.Starting.{blocks_in};

use crate::arrays::arrays_refused;
use crate::fault::{Refusal, SpaceFault, no_memory};
use crate::given::kinds;
use crate::indices::indices_refused;
use crate::spaces::Spaces;
use crate::spanning::spans;
use crate::start::{Start, blocks, numbers};
use crate::starts::starts_refused;
use crate::statements::statements_refused;
use sial_syntax::{Classes, Program, ScalarClass};
use sip_input::Input;
use std::alloc::{AllocError, Global};

/// The spaces and the start values of a program with these classes and an input, or what the input is refused for.
pub fn resolve(
    alloc: Global,
    program: &Program,
    classes: &Classes,
    input: &Input,
) -> Result<(Spaces, Start), SpaceFault>
    requires few { length (tree program.now).arrays ≤ 2 ^ 16 }
    requires input { IsInput input.now }

    ensures spaces { IfOk result (λ found. found.0 ≡ placed_by (tree program.now) input.now) }
    ensures numbers { IfOk result (λ found. found.1.scalars.items ≡ numbers_given (tree program.now) input.now) }
    ensures blocks { IfOk result (λ found. blocks_in found.1 ≡ blocks_given (tree program.now) found.0.spaces input.now) }

    // The spaces are the program's, and nothing is refused.
    ensures own { IfOk result (λ found. AreSpacesBy (constants_of input.now) (tree program.now) found.0.spaces) }
    ensures granted { OnOk result (refusal (tree program.now) classes.now.scalars.items input.now ≡ None) }

    // The first refusal of four rounds, or want of memory.
    ensures fault { IfErr result (IsCause (refusal (tree program.now) classes.now.scalars.items input.now)) }
{
    let spaces = match opened(alloc, program, input) {
        Ok(spaces) => spaces,
        Err(_) => return Err(no_memory(alloc)),
    };
    if let Some(refusal) = refused(&spaces, program, classes.scalars.as_slice(), input) {
        return Err(refusal.told(alloc));
    }
    match placed(alloc, spaces, program, input) {
        Ok(found) => Ok(found),
        Err(_) => Err(no_memory(alloc)),
    }
}

// What the indices of a program run over, with no arrays yet.
fn opened(alloc: Global, program: &Program, input: &Input) -> Result<Spaces, AllocError>
    requires { IsInput input.now }
    ensures { IfOk result (λ s. s.spaces ≡ spaces_by (tree program.now) input.now) }
{
    let kinds = kinds(alloc, input)?;
    let spans = spans(
        alloc,
        &kinds,
        input.constants.as_slice(),
        program.indices.as_slice(),
    )?;
    Spaces::open(alloc, kinds, spans, &[])
}

// The first refusal of the four rounds.
fn refused<'a>(
    spaces: &Spaces,
    program: &'a Program,
    classes: &[ScalarClass],
    input: &'a Input,
) -> Option<Refusal<'a>>
    ensures { seen result ≡ refusal_by (tree program.now) spaces.now.spaces classes.now input.now }
{
    let constants = input.constants.as_slice();
    if let Some(refusal) = indices_refused(spaces, constants, program.indices.as_slice()) {
        return Some(refusal);
    }
    if let Some(refusal) = arrays_refused(spaces, program.arrays.as_slice()) {
        return Some(refusal);
    }
    if let Some(found) = statements_refused(spaces, program) {
        return Some(found.refusal);
    }
    match starts_refused(spaces, program, classes, input) {
        Some(found) => Some(found.refusal),
        None => None,
    }
}

// The spaces with the program's arrays, and the start values, where nothing is refused.
fn placed(
    alloc: Global,
    spaces: Spaces,
    program: &Program,
    input: &Input,
) -> Result<(Spaces, Start), AllocError>
    requires few { length (tree program.now).arrays ≤ 2 ^ 16 }
    requires arrays { arrays_refusal spaces.spaces [] (tree program.now).arrays ≡ None }
    requires blocks { soonest (block_refusal (tree program.now) spaces.spaces) input.now.blocks.items ≡ None }
    ensures spaces { IfOk result (λ found. found.0 ≡ record { spaces = spaces.spaces; arrays = map bare (tree program.now).arrays }) }
    ensures numbers { IfOk result (λ found. found.1.scalars.items ≡ numbers_given (tree program.now) input.now) }
    ensures given { IfOk result (λ found. blocks_in found.1 ≡ blocks_given (tree program.now) spaces.spaces input.now) }
{
    let spaces = spaces.with_arrays(alloc, program.arrays.as_slice())?;
    let scalars = numbers(alloc, program.scalars.as_slice(), input.scalars.as_slice())?;
    let blocks = blocks(alloc, &spaces, program, input.blocks.as_slice())?;
    Ok((spaces, Start { scalars, blocks }))
}
