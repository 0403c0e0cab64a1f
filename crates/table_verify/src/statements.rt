//! Statements with bodies, and bodies.

ghost use Rattle.std.specs.Prelude.{◌≡◌, map};
ghost use Rattle.sial_syntax.specs.Tree.{block, plain_form, plain_stmt};
ghost use Rattle.table_verify.specs.Rest.{Gives, seen};
ghost use Rattle.table_verify.specs.Statements as spec;

use crate::closings::{begin, end_do, end_if, end_pardo, wheres};
use crate::read_fault::ReadFault;
use crate::rest::{Rest, next};
use crate::simple::{branches, call, print, simple};
use sial_syntax::{Cond, Form, Stmt};
use sip_tables::Operation;
use std::alloc::Global;

/// What all of the code tells.
#[derive(Clone, Copy)]
pub struct Whole<'a> {
    /// The numbers of the procedures' first instructions.
    pub entries: &'a [u32],
    /// How many instructions there are.
    pub len: usize,
}

/// Statements, as many as come next, in which so many may nest.
#[cycle(reading)]
pub fn body<'a>(
    alloc: Global,
    whole: Whole<'_>,
    depth: u32,
    start: Rest<'a>,
) -> Result<(Vec<Stmt>, Rest<'a>), ReadFault>
    ensures { Gives (λ x. (block x.0.items, seen x.1)) result (spec.body whole.entry.entries.now whole.entry.len depth (seen start.entry)) }
{
    let mut stmts = Vec::new(alloc);
    let mut rest = start;
    for turn in 0..whole.len {
        if !begin(rest) {
            return Ok((stmts, rest));
        }
        let (stmt, behind) = statement(alloc, whole, depth, rest)?;
        stmts.push(stmt)?;
        rest = behind;
    }
    Ok((stmts, rest))
}

// The body of a statement, if one may nest there.
#[cycle(reading)]
fn inner<'a>(
    alloc: Global,
    whole: Whole<'_>,
    depth: u32,
    rest: Rest<'a>,
) -> Result<(Vec<Stmt>, Rest<'a>), ReadFault>
    ensures { Gives (λ x. (block x.0.items, seen x.1)) result (spec.within whole.entry depth (seen rest.entry)) }
{
    if depth == 0 {
        return Err(ReadFault::NotAProgram);
    }
    body(alloc, whole, depth - 1, rest)
}

// A statement.
#[cycle(reading)]
#[tactic(auto, unfolding(crate::specs::Statements::statement))]
fn statement<'a>(
    alloc: Global,
    whole: Whole<'_>,
    depth: u32,
    rest: Rest<'a>,
) -> Result<(Stmt, Rest<'a>), ReadFault>
    ensures { Gives (λ x. (plain_stmt x.0, seen x.1)) result (spec.statement whole.entry.entries.now whole.entry.len (spec.within whole.entry depth) (seen rest.entry)) }
{
    let Some((first, behind)) = next(rest) else {
        return Err(ReadFault::NotAProgram);
    };
    let place = (rest.at, first.line);
    let (form, behind) = form(alloc, whole, depth, place, &first.operation, behind)?;
    Ok((
        Stmt {
            line: first.line,
            form,
        },
        behind,
    ))
}

// What a statement says that begins with an operation; `place` is its number and its line.
#[cycle(reading)]
fn form<'a>(
    alloc: Global,
    whole: Whole<'_>,
    depth: u32,
    place: (usize, u32),
    operation: &Operation,
    rest: Rest<'a>,
) -> Result<(Form, Rest<'a>), ReadFault>
    ensures { Gives (λ x. (plain_form x.0, seen x.1)) result (spec.form whole.entry.entries.now whole.entry.len (spec.within whole.entry depth) place.0 place.1 operation.now (seen rest.entry)) }
{
    match operation {
        Operation::Do { index, past } => {
            over_segments(alloc, whole, depth, place, *index, *past, rest)
        }
        Operation::DoIn { sub, index, past } => {
            over_pieces(alloc, whole, depth, place, (*sub, *index), *past, rest)
        }
        Operation::Pardo { indices, end } => pardo(
            alloc,
            whole,
            depth,
            place,
            indices.as_slice(),
            *end,
            rest,
        ),
        Operation::If { cond, otherwise } => {
            branch(alloc, whole, depth, place.1, *cond, *otherwise, rest)
        }
        Operation::Print { text } => print(alloc, *text, rest),
        Operation::Call { procedure, entry } => call(whole.entries, *procedure, *entry, rest),
        _ => Ok((simple(alloc, operation)?, rest)),
    }
}

// A loop over segments.
#[cycle(reading)]
#[tactic(auto, unfolding(crate::specs::Statements::over_segments))]
fn over_segments<'a>(
    alloc: Global,
    whole: Whole<'_>,
    depth: u32,
    place: (usize, u32),
    index: u16,
    past: u32,
    rest: Rest<'a>,
) -> Result<(Form, Rest<'a>), ReadFault>
    ensures { Gives (λ x. (plain_form x.0, seen x.1)) result (spec.over_segments (spec.within whole.entry depth) place.0 place.1 index past (seen rest.entry)) }
{
    let (body, rest) = inner(alloc, whole, depth, rest)?;
    let rest = end_do(place.1, place.0, rest)?;
    if past as usize == rest.at {
        Ok((Form::Do { index, body }, rest))
    } else {
        Err(ReadFault::NotAProgram)
    }
}

// A loop over pieces.
#[cycle(reading)]
#[tactic(auto, unfolding(crate::specs::Statements::over_pieces))]
fn over_pieces<'a>(
    alloc: Global,
    whole: Whole<'_>,
    depth: u32,
    place: (usize, u32),
    indices: (u16, u16),
    past: u32,
    rest: Rest<'a>,
) -> Result<(Form, Rest<'a>), ReadFault>
    ensures { Gives (λ x. (plain_form x.0, seen x.1)) result (spec.over_pieces (spec.within whole.entry depth) place.0 place.1 indices.0 indices.1 past (seen rest.entry)) }
{
    let (sub, index) = indices;
    let (body, rest) = inner(alloc, whole, depth, rest)?;
    let rest = end_do(place.1, place.0, rest)?;
    if past as usize == rest.at {
        Ok((Form::DoIn { sub, index, body }, rest))
    } else {
        Err(ReadFault::NotAProgram)
    }
}

// A pardo.
#[cycle(reading)]
#[tactic(auto, unfolding(crate::specs::Statements::pardo))]
fn pardo<'a>(
    alloc: Global,
    whole: Whole<'_>,
    depth: u32,
    place: (usize, u32),
    indices: &[u16],
    end: u32,
    rest: Rest<'a>,
) -> Result<(Form, Rest<'a>), ReadFault>
    ensures { Gives (λ x. (plain_form x.0, seen x.1)) result (spec.pardo (spec.within whole.entry depth) whole.entry.len place.0 place.1 indices.now end (seen rest.entry)) }
{
    let (wheres, rest) = wheres(alloc, whole.len, place.1, rest)?;
    let (body, last) = inner(alloc, whole, depth, rest)?;
    let rest = end_pardo(place.1, place.0, last)?;
    let indices = Vec::from_slice(alloc, indices)?;
    if end as usize == last.at {
        Ok((
            Form::Pardo {
                indices,
                wheres,
                body,
            },
            rest,
        ))
    } else {
        Err(ReadFault::NotAProgram)
    }
}

// An `if`, up to what stands behind its first branch.
#[cycle(reading)]
#[tactic(auto, unfolding(crate::specs::Statements::branch))]
fn branch<'a>(
    alloc: Global,
    whole: Whole<'_>,
    depth: u32,
    line: u32,
    cond: Cond,
    otherwise: u32,
    rest: Rest<'a>,
) -> Result<(Form, Rest<'a>), ReadFault>
    ensures { Gives (λ x. (plain_form x.0, seen x.1)) result (spec.branch (spec.within whole.entry depth) line cond otherwise (seen rest.entry)) }
{
    let (first, rest) = inner(alloc, whole, depth, rest)?;
    let Some((last, rest)) = next(rest) else {
        return Err(ReadFault::NotAProgram);
    };
    if last.line == line && otherwise as usize == rest.at {
        after_branch(
            alloc,
            whole,
            depth,
            line,
            cond,
            first,
            &last.operation,
            rest,
        )
    } else {
        Err(ReadFault::NotAProgram)
    }
}

// An `if` whose first branch was read, with what stands behind it.
#[cycle(reading)]
fn after_branch<'a>(
    alloc: Global,
    whole: Whole<'_>,
    depth: u32,
    line: u32,
    cond: Cond,
    first: Vec<Stmt>,
    last: &Operation,
    rest: Rest<'a>,
) -> Result<(Form, Rest<'a>), ReadFault>
    ensures { Gives (λ x. (plain_form x.0, seen x.1)) result (spec.after_branch (spec.within whole.entry depth) line cond (block first.items) last.now (seen rest.entry)) }
{
    match last {
        Operation::EndIf => Ok((
            Form::If {
                cond,
                then_body: first,
                else_body: None,
            },
            rest,
        )),
        Operation::Else { past } => second(alloc, whole, depth, line, cond, first, *past, rest),
        _ => Err(ReadFault::NotAProgram),
    }
}

// The other branch of an `if`.
#[cycle(reading)]
#[tactic(auto, unfolding(crate::specs::Statements::second))]
fn second<'a>(
    alloc: Global,
    whole: Whole<'_>,
    depth: u32,
    line: u32,
    cond: Cond,
    first: Vec<Stmt>,
    past: u32,
    rest: Rest<'a>,
) -> Result<(Form, Rest<'a>), ReadFault>
    ensures { Gives (λ x. (plain_form x.0, seen x.1)) result (spec.second (spec.within whole.entry depth) line cond (block first.items) past (seen rest.entry)) }
{
    let (other, rest) = inner(alloc, whole, depth, rest)?;
    let rest = end_if(line, rest)?;
    if past as usize == rest.at {
        Ok((branches(cond, first, other), rest))
    } else {
        Err(ReadFault::NotAProgram)
    }
}
