//! Inputs, read line by line.

ghost use Rattle.std.specs.Prelude.{◌≡◌, ◌+◌, ◌<◌, ◌≤◌, ◌^◌, length, IfOk, IfErr, OnOk, Ok, Err};
ghost use Rattle.sip_input.specs.Given.{IsInput};
ghost use Rattle.sip_input.specs.declared.input.Input.{Input};
ghost use Rattle.input_text.specs.Adding.{given_by};
ghost use Rattle.input_text.specs.LineReading as spec;
ghost use Rattle.input_text.specs.Seen.{IsTied, seen};
ghost use Rattle.input_text.specs.Texts.{IsCause, IsFaultOf, IsInputOf};
ghost use Rattle.input_text.specs.declared.fault.InputFault.{InputFault};

use crate::building::Building;
use crate::fault::InputFault;
use crate::lines::first_line;
use crate::saying::said_in;
use crate::words::words_in;
use sip_input::Input;
use std::alloc::Global;

/// The input that a text gives, or the text's first fault, in time linear in its length.
pub fn read_input(alloc: Global, text: &[u8]) -> Result<Input, InputFault>
    requires { length text.now < 2 ^ 31 }

    // What is given is the text's input, and it is given wherever the text has one and memory is found.
    ensures found { IfOk result (IsInputOf text.now) }
    ensures only { (input : Input) → IsInputOf text.now input → spec.Gives given_by result (Ok (given_by input)) }

    // What is refused is refused for the text's first fault, and each text with a fault is.
    ensures fault { IfErr result (IsCause text.now) }
    ensures only_fault { (fault : InputFault) → IsFaultOf text.now fault → spec.Gives given_by result (Err fault) }

    // Constants and lengths are within their limits.
    ensures proper { IfOk result IsInput }
{
    read(alloc, text)
}

// The input of a text, line by line.
fn read(alloc: Global, text: &[u8]) -> Result<Input, InputFault>
    requires { length text.now < 2 ^ 31 }
    ensures { spec.Gives given_by result (spec.given_in text.now) }
{
    let mut building = Building::new(alloc);
    let mut rest = text;
    let mut line: u32 = 1;
    while !rest.is_empty() {
        let (first, left) = first_line(rest);
        add_line(alloc, &mut building, line, first)?;
        rest = left;
        line += 1;
    }
    Ok(building.into_input())
}

// Adds what a line says.
fn add_line(
    alloc: Global,
    building: &mut Building,
    line: u32,
    text: &[u8],
) -> Result<(), InputFault>
    requires { IsTied building.old }
    ensures exact { spec.Gives (λ _. seen building.new) result (spec.add_line (seen building.old) line text.now) }
    ensures tied { OnOk result (IsTied building.new) }
{
    let Some(words) = words_in(alloc, text)? else {
        return Err(InputFault::BadLine { line });
    };
    let Some(said) = said_in(alloc, words.as_slice())? else {
        return Err(InputFault::BadLine { line });
    };
    building.add(alloc, line, said)
}
