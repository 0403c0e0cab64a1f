//! Where procedures start, compared with their entries and with calls.

ghost use Rattle.std.specs.Prelude.{◌≡◌, [], IfOk, length};
ghost use Rattle.table_verify.specs.Starting as spec;

use sip_tables::{Instruction, Operation, ProcedureEntry};
use std::alloc::{AllocError, Global};

// Whether an operation ends a body.
fn ends_body(operation: &Operation) -> bool
    ensures { result ≡ spec.ends_body operation.now }
{
    matches!(operation, Operation::Stop | Operation::Return)
}

/// What stands behind the ends of bodies: where procedures start, and at last where the code ends.
pub fn starts(alloc: Global, code: &[Instruction]) -> Result<Vec<usize>, AllocError>
    ensures { IfOk result (λ v. v.items ≡ spec.starts_onto [] 0 code.now) }
{
    let mut starts = Vec::new(alloc);
    for (at, instruction) in code.iter().enumerate() {
        if ends_body(&instruction.operation) {
            starts.push(at + 1)?;
        }
    }
    Ok(starts)
}

// Whether a procedure is known to start elsewhere.
fn is_other(starts: &[usize], procedure: usize, entry: u32) -> bool
    ensures { result ≡ spec.is_other starts.now procedure entry }
{
    match starts.get(procedure) {
        Some(start) => *start != entry as usize,
        None => false,
    }
}

/// Whether a procedure is known to start elsewhere than its entry says.
pub fn some_other(starts: &[usize], procedures: &[ProcedureEntry]) -> bool
    ensures { result ≡ spec.some_other starts.now 0 procedures.now }
{
    for (number, procedure) in procedures.iter().enumerate() {
        if is_other(starts, number, procedure.entry) {
            return true;
        }
    }
    false
}

// Whether an operation is a call of one of so many procedures, which starts elsewhere.
fn calls_other(procedures: usize, starts: &[usize], operation: &Operation) -> bool
    ensures { result ≡ spec.calls_other procedures starts.now operation.now }
{
    match operation {
        Operation::Call { procedure, entry } => {
            (*procedure as usize) < procedures && is_other(starts, *procedure as usize, *entry)
        }
        _ => false,
    }
}

/// The first instruction that calls a procedure where it doesn't start.
pub fn first_call(procedures: usize, starts: &[usize], code: &[Instruction]) -> Option<usize>
    ensures { result ≡ spec.first_call procedures starts.now 0 code.now }
{
    for (at, instruction) in code.iter().enumerate() {
        if calls_other(procedures, starts, &instruction.operation) {
            return Some(at);
        }
    }
    None
}

/// The earlier of two, where there are both.
pub fn earlier(first: Option<usize>, second: Option<usize>) -> Option<usize>
    ensures { result ≡ spec.earlier first second }
{
    match (first, second) {
        (Some(a), Some(b)) => Some(a.min(b)),
        (Some(a), None) => Some(a),
        (None, other) => other,
    }
}
