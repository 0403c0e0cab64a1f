//! Where tables name what isn't there.

ghost use Rattle.std.specs.Prelude.{◌≡◌, IfOk, length, option_map};
ghost use Rattle.sial_syntax.specs.Tree.{tree};
ghost use Rattle.table_verify.specs.JumpFaults.{IsFirst};
ghost use Rattle.table_verify.specs.NumberFaults.{NumberAt};
ghost use Rattle.table_verify.specs.Numbering as spec;
ghost use Rattle.table_verify.specs.Things as things;

use crate::closings::begins;
use crate::jumping::front_len;
use crate::passing::passes_heads;
use crate::read_fault::ReadFault;
use crate::things::{is_right, prints};
use crate::verifier::heads;
use sial_syntax::{Program, Text};
use sip_files::OutOfMemory;
use sip_tables::{Instruction, Operation, Tables};
use std::alloc::Global;

/// The number of the first instruction that names a thing or a text that isn't there, if there is one; what is declared, and how many texts
/// and statements there are, counts as the first. From the one on at which nesting breaks nothing is told.
pub fn number_fault(alloc: Global, tables: &Tables) -> Result<Option<usize>, OutOfMemory>
    ensures { IfOk result (λ found. IsFirst (λ at. NumberAt at tables.now) found) }
{
    let Some((program, next)) = declared(alloc, tables)? else {
        return Ok(Some(0));
    };
    let count = front_len(alloc, tables)?;
    let code = &tables.code()[..count];
    Ok(first_other(&program, tables.texts(), next, code))
}

// The program that tables declare, with no statement yet, and the number of the first text behind its names.
#[tactic(auto, unfolding(crate::specs::Numbering::declared))]
fn declared(alloc: Global, tables: &Tables) -> Result<Option<(Program, usize)>, OutOfMemory>
    ensures { IfOk result (λ found. option_map (λ x. (tree x.0, x.1)) found ≡ spec.declared tables.now) }
{
    match heads(alloc, tables) {
        Ok((program, rest)) => {
            if passes_heads(&program) && is_used(tables, rest.text) {
                Ok(Some((program, rest.text)))
            } else {
                Ok(None)
            }
        }
        Err(ReadFault::NotAProgram) => Ok(None),
        Err(ReadFault::OutOfMemory) => Err(OutOfMemory),
    }
}

// Whether no text is left behind all that is printed, and no more statements begin than may.
fn is_used(tables: &Tables, next: usize) -> bool
    ensures { result ≡ spec.is_used tables.now next }
{
    tables.texts_len().saturating_sub(next) <= prints_in(tables.code())
        && begun_in(tables.code()) <= 65535
}

// How many texts code prints.
fn prints_in(code: &[Instruction]) -> usize
    ensures value { result ≡ things.prints_in code.now }
{
    let mut count = 0;
    for (at, instruction) in code.iter().enumerate() {
        if prints(&instruction.operation) {
            count += 1;
        }
    }
    count
}

// How many statements begin in code.
fn begun_in(code: &[Instruction]) -> usize
    ensures value { result ≡ things.begun_in code.now }
{
    let mut count = 0;
    for (at, instruction) in code.iter().enumerate() {
        if begins(&instruction.operation) {
            count += 1;
        }
    }
    count
}

// The first instruction that names what isn't there.
fn first_other(
    program: &Program,
    texts: &[Text],
    start: usize,
    code: &[Instruction],
) -> Option<usize>
    ensures { result ≡ spec.first_other (tree program.now) texts.now start 0 code.now }
{
    let mut next = start;
    for (at, instruction) in code.iter().enumerate() {
        if !is_right(program, texts, next, &instruction.operation) {
            return Some(at);
        }
        next = next_after(next, &instruction.operation);
    }
    None
}

// The next text behind an operation that is right.
fn next_after(next: usize, operation: &Operation) -> usize
    ensures { result ≡ spec.next_after next operation.now }
{
    match operation {
        Operation::Print { text } => *text as usize + 1,
        _ => next,
    }
}
