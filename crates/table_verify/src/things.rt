//! Whether what an instruction names by number is there.

ghost use Rattle.std.specs.Prelude.{◌≡◌, if◌then◌else◌, slice_get};
ghost use Rattle.sial_syntax.specs.Tree.{tree};
ghost use Rattle.table_verify.specs.Things as spec;

use crate::names::is_text;
use crate::parts::{
    has_array, has_block, has_condition, has_index, has_indices, has_procedure, has_right,
    has_scalar, has_slots, has_target, is_write,
};
use sial_syntax::{Program, Text};
use sip_tables::Operation;

// Whether the things that an operation names are there.
fn names_things(program: &Program, operation: &Operation) -> bool
    ensures { result ≡ spec.names_things (tree program.now) operation.now }
{
    match operation {
        Operation::Do { index, .. } => has_index(program, *index),
        Operation::DoIn { sub, index, .. } => {
            has_index(program, *sub) && has_index(program, *index)
        }
        Operation::If { cond, .. } => has_condition(program, cond),
        Operation::Where { cond } => has_condition(program, cond),
        Operation::Pardo { indices, .. } => {
            (1..=12).contains(&indices.as_slice().len()) && has_indices(program, indices.as_slice())
        }
        Operation::Call { procedure, .. } => has_procedure(program, *procedure),
        Operation::Assign { target, right, .. } => {
            has_target(program, target) && has_right(program, right)
        }
        Operation::Get { block } => has_block(program, block),
        Operation::Request { block } => has_block(program, block),
        Operation::Put { block, how, from } => {
            has_block(program, block) && is_write(*how) && has_block(program, from)
        }
        Operation::Prepare { block, how, from } => {
            has_block(program, block) && is_write(*how) && has_block(program, from)
        }
        Operation::Create { array } => has_array(program, *array),
        Operation::Delete { array } => has_array(program, *array),
        Operation::Allocate { array, at } => {
            has_array(program, *array)
                && (1..=6).contains(&at.as_slice().len())
                && has_slots(program, at.as_slice())
        }
        Operation::Deallocate { array, at } => {
            has_array(program, *array)
                && (1..=6).contains(&at.as_slice().len())
                && has_slots(program, at.as_slice())
        }
        Operation::Collective { into, from } => {
            has_scalar(program, *into) && has_scalar(program, *from)
        }
        Operation::PrintScalar { scalar } => has_scalar(program, *scalar),
        Operation::Integrals { block } => has_block(program, block),
        _ => true,
    }
}

// Whether there is a text of this number and it may be printed.
fn is_printed(texts: &[Text], number: usize) -> bool
    ensures { result ≡ spec.is_printed (slice_get texts.now number) }
{
    match texts.get(number) {
        Some(text) => is_text(text.as_slice()),
        None => false,
    }
}

// Whether an operation prints no text but the next one.
fn prints_next(texts: &[Text], next: usize, operation: &Operation) -> bool
    ensures { result ≡ spec.prints_next texts.now next operation.now }
{
    match operation {
        Operation::Print { text } => *text as usize == next && is_printed(texts, *text as usize),
        _ => true,
    }
}

/// Whether all that an operation names is there, and it prints no text but the next one.
pub fn is_right(program: &Program, texts: &[Text], next: usize, operation: &Operation) -> bool
    ensures { result ≡ spec.is_right (tree program.now) texts.now next operation.now }
{
    names_things(program, operation) && prints_next(texts, next, operation)
}

/// Whether an operation prints a text.
pub fn prints(operation: &Operation) -> bool
    ensures { (if result then 1 else 0) ≡ spec.prints_of operation.now }
{
    matches!(operation, Operation::Print { .. })
}
