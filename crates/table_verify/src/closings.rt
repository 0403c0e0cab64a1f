//! Instructions that close statements, programs and procedures, and the `where` lines that follow a pardo.

ghost use Rattle.std.specs.Prelude.{◌≡◌, [], option_map};
ghost use Rattle.table_verify.specs.Closings as spec;
ghost use Rattle.table_verify.specs.Rest.{Gives, seen};

use crate::read_fault::ReadFault;
use crate::rest::{Rest, next};
use sial_syntax::Cond;
use sip_tables::Operation;
use std::alloc::Global;

/// Whether an operation begins a statement.
pub fn begins(operation: &Operation) -> bool
    ensures { result ≡ spec.begins operation.now }
{
    !matches!(
        operation,
        Operation::Stop
            | Operation::Return
            | Operation::EndDo { .. }
            | Operation::Else { .. }
            | Operation::EndIf
            | Operation::Where { .. }
            | Operation::EndPardo { .. }
    )
}

/// Whether a statement comes next.
pub fn begin(rest: Rest<'_>) -> bool
    ensures { result ≡ spec.begin (seen rest.entry).code }
{
    match next(rest) {
        Some((first, _)) => begins(&first.operation),
        None => false,
    }
}

// Whether an operation ends a loop that begins at `head`.
fn ends_do(head: usize, operation: &Operation) -> bool
    ensures { result ≡ spec.ends_do head operation.now }
{
    match operation {
        Operation::EndDo { head: to } => *to as usize == head,
        _ => false,
    }
}

// Whether an operation ends a pardo that begins at `head`.
fn ends_pardo(head: usize, operation: &Operation) -> bool
    ensures { result ≡ spec.ends_pardo head operation.now }
{
    match operation {
        Operation::EndPardo { head: to } => *to as usize == head,
        _ => false,
    }
}

/// The end of a loop that begins at `head` on this line; what is left behind it.
#[tactic(auto, unfolding(crate::specs::Closings::end_do))]
pub fn end_do(line: u32, head: usize, rest: Rest<'_>) -> Result<Rest<'_>, ReadFault>
    ensures { Gives seen result (spec.end_do line head (seen rest.entry)) }
{
    let Some((last, rest)) = next(rest) else {
        return Err(ReadFault::NotAProgram);
    };
    if last.line == line && ends_do(head, &last.operation) {
        Ok(rest)
    } else {
        Err(ReadFault::NotAProgram)
    }
}

/// The end of a pardo that begins at `head` on this line; what is left behind it.
#[tactic(auto, unfolding(crate::specs::Closings::end_pardo))]
pub fn end_pardo(line: u32, head: usize, rest: Rest<'_>) -> Result<Rest<'_>, ReadFault>
    ensures { Gives seen result (spec.end_pardo line head (seen rest.entry)) }
{
    let Some((last, rest)) = next(rest) else {
        return Err(ReadFault::NotAProgram);
    };
    if last.line == line && ends_pardo(head, &last.operation) {
        Ok(rest)
    } else {
        Err(ReadFault::NotAProgram)
    }
}

/// The end of an `if` on this line; what is left behind it.
#[tactic(auto, unfolding(crate::specs::Closings::end_if))]
pub fn end_if(line: u32, rest: Rest<'_>) -> Result<Rest<'_>, ReadFault>
    ensures { Gives seen result (spec.end_if line (seen rest.entry)) }
{
    let Some((last, rest)) = next(rest) else {
        return Err(ReadFault::NotAProgram);
    };
    if last.line == line && matches!(last.operation, Operation::EndIf) {
        Ok(rest)
    } else {
        Err(ReadFault::NotAProgram)
    }
}

/// The end of the program; what is left behind it.
#[tactic(auto, unfolding(crate::specs::Closings::stop))]
pub fn stop(rest: Rest<'_>) -> Result<Rest<'_>, ReadFault>
    ensures { Gives seen result (spec.stop (seen rest.entry)) }
{
    let Some((last, rest)) = next(rest) else {
        return Err(ReadFault::NotAProgram);
    };
    if last.line == 0 && matches!(last.operation, Operation::Stop) {
        Ok(rest)
    } else {
        Err(ReadFault::NotAProgram)
    }
}

/// The end of a procedure; what is left behind it.
#[tactic(auto, unfolding(crate::specs::Closings::return_from))]
pub fn return_from(rest: Rest<'_>) -> Result<Rest<'_>, ReadFault>
    ensures { Gives seen result (spec.return_from (seen rest.entry)) }
{
    let Some((last, rest)) = next(rest) else {
        return Err(ReadFault::NotAProgram);
    };
    if last.line == 0 && matches!(last.operation, Operation::Return) {
        Ok(rest)
    } else {
        Err(ReadFault::NotAProgram)
    }
}

// The condition of a `where` line on this line, if one comes next, and what is left behind it.
fn where_at(line: u32, rest: Rest<'_>) -> Option<(Cond, Rest<'_>)>
    ensures { option_map (λ x. (x.0, seen x.1)) result ≡ spec.where_at line (seen rest.entry) }
{
    let (first, behind) = next(rest)?;
    if first.line != line {
        return None;
    }
    match &first.operation {
        Operation::Where { cond } => Some((*cond, behind)),
        _ => None,
    }
}

/// The conditions of the `where` lines that come next on this line, at most so many, and what is left behind them.
pub fn wheres<'a>(
    alloc: Global,
    most: usize,
    line: u32,
    start: Rest<'a>,
) -> Result<(Vec<Cond>, Rest<'a>), ReadFault>
    ensures { Gives (λ x. (x.0.items, seen x.1)) result (spec.wheres line most [] (seen start.entry)) }
{
    let mut wheres = Vec::new(alloc);
    let mut rest = start;
    for turn in 0..most {
        let Some((cond, behind)) = where_at(line, rest) else {
            return Ok((wheres, rest));
        };
        wheres.push(cond)?;
        rest = behind;
    }
    Ok((wheres, rest))
}
