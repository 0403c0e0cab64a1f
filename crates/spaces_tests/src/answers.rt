//! What inputs of programs give, or what they are refused for.

ghost use Rattle.sip_input.specs.Given.{IsInput};

use index_spaces::{SpaceFault, SpaceKind, Spaces, Start, resolve};
use sial_syntax::{Classes, Program, ScalarClass};
use sip_input::Input;
use std::alloc::{AllocError, Global};

// The classes of the scalars `x`, `y`, `z` and another `x`.
fn classes(alloc: Global) -> Result<Classes, AllocError> {
    let scalars = [
        ScalarClass::Replicated,
        ScalarClass::Private,
        ScalarClass::Partial,
        ScalarClass::Replicated,
    ];
    Ok(Classes {
        scalars: Vec::from_slice(alloc, &scalars)?,
        locals: Vec::new(alloc),
    })
}

// What an input gives a program, or why it is refused.
fn answer(
    alloc: Global,
    program: &Program,
    input: &Input,
) -> Result<Result<(Spaces, Start), SpaceFault>, AllocError>
    requires { IsInput input.now }
{
    if program.arrays.len() > 256 {
        return Err(AllocError);
    }
    let classes = classes(alloc)?;
    Ok(resolve(alloc, program, &classes, input))
}

// The kind of a fault, the first letter of its name, and its value.
fn told(fault: &SpaceFault) -> (SpaceKind, u8, u64) {
    let letter = fault.name.as_slice().first().copied().unwrap_or(0);
    (fault.kind, letter, fault.value)
}

/// What an input is refused for: the kind, the first letter of the name, and the value; nothing where it fits.
pub fn refused(
    alloc: Global,
    program: &Program,
    input: &Input,
) -> Result<Option<(SpaceKind, u8, u64)>, AllocError>
    requires { IsInput input.now }
{
    match answer(alloc, program, input)? {
        Ok(_) => Ok(None),
        Err(fault) => Ok(Some(told(&fault))),
    }
}

/// The spaces and the start values that an input gives, where it fits.
pub fn resolved(
    alloc: Global,
    program: &Program,
    input: &Input,
) -> Result<Option<(Spaces, Start)>, AllocError>
    requires { IsInput input.now }
{
    Ok(answer(alloc, program, input)?.ok())
}
