//! The code of statements.

ghost use Rattle.std.specs.Prelude.{[], OnOk};
ghost use Rattle.sial_syntax.specs.Tree.{Do, DoIn, Pardo, If, IfElse, block, plain_form};
ghost use Rattle.sip_tables.specs.Code.{wheres_code};
ghost use Rattle.table_compiler.specs.Grown.{Adds, AddsForm, AddsBody};

use crate::flat::Flat;
use crate::operations;
use sial_syntax::{Cond, Form, Stmt};
use sip_files::OutOfMemory;
use sip_tables::{Indices, Operation};
use std::alloc::Global;

/// The code of statements; `entries` are the numbers of the procedures' first instructions.
#[cycle(flattening)]
pub fn body(
    alloc: Global,
    entries: &[u32],
    flat: &mut Flat,
    stmts: &[Stmt],
) -> Result<(), OutOfMemory>
    ensures { OnOk result (AddsBody entries.now flat.old flat.new (block stmts.now)) }
{
    for stmt in stmts {
        statement(alloc, entries, flat, stmt.line, &stmt.form)?;
    }
    Ok(())
}

// The code of a statement.
#[cycle(flattening)]
fn statement(
    alloc: Global,
    entries: &[u32],
    flat: &mut Flat,
    line: u32,
    form: &Form,
) -> Result<(), OutOfMemory>
    ensures { OnOk result (AddsForm entries.now flat.old flat.new line (plain_form form.now)) }
{
    match form {
        Form::Do { index, body } => over_segments(
            alloc,
            entries,
            flat,
            line,
            *index,
            body.as_slice(),
        ),
        Form::DoIn { sub, index, body } => over_pieces(
            alloc,
            entries,
            flat,
            line,
            (*sub, *index),
            body.as_slice(),
        ),
        Form::Pardo {
            indices,
            wheres,
            body,
        } => pardo(
            alloc,
            entries,
            flat,
            line,
            indices.as_slice(),
            wheres.as_slice(),
            body.as_slice(),
        ),
        Form::If {
            cond,
            then_body,
            else_body: None,
        } => branch(alloc, entries, flat, line, *cond, then_body.as_slice()),
        Form::If {
            cond,
            then_body,
            else_body: Some(other),
        } => branches(
            alloc,
            entries,
            flat,
            line,
            *cond,
            then_body.as_slice(),
            other.as_slice(),
        ),
        Form::Print { text } => flat.print(alloc, line, text),
        Form::Call { proc } => flat.put(line, operations::call(entries, *proc)),
        Form::Assign { target, op, right } => {
            flat.put(line, operations::assign(alloc, target, *op, right)?)
        }
        Form::Get { block } => flat.put(line, operations::get(alloc, block)?),
        Form::Request { block } => flat.put(line, operations::request(alloc, block)?),
        Form::Put { block, how, from } => {
            flat.put(line, operations::put(alloc, block, *how, from)?)
        }
        Form::Prepare { block, how, from } => {
            flat.put(line, operations::prepare(alloc, block, *how, from)?)
        }
        Form::Create { array } => flat.put(line, Operation::Create { array: *array }),
        Form::Delete { array } => flat.put(line, Operation::Delete { array: *array }),
        Form::Allocate { array, at } => flat.put(
            line,
            operations::allocate(alloc, *array, at.as_slice())?,
        ),
        Form::Deallocate { array, at } => flat.put(
            line,
            operations::deallocate(alloc, *array, at.as_slice())?,
        ),
        Form::Collective { into, from } => flat.put(
            line,
            Operation::Collective {
                into: *into,
                from: *from,
            },
        ),
        Form::SipBarrier => flat.put(line, Operation::SipBarrier),
        Form::ServerBarrier => flat.put(line, Operation::ServerBarrier),
        Form::PrintScalar { scalar } => flat.put(line, Operation::PrintScalar { scalar: *scalar }),
        Form::Integrals { block } => flat.put(line, operations::integrals(alloc, block)?),
    }
}

// A loop over segments.
#[cycle(flattening)]
fn over_segments(
    alloc: Global,
    entries: &[u32],
    flat: &mut Flat,
    line: u32,
    index: u16,
    stmts: &[Stmt],
) -> Result<(), OutOfMemory>
    ensures { OnOk result (AddsForm entries.now flat.old flat.new line (Do index (block stmts.now))) }
{
    let head = flat.reserve(line)?;
    body(alloc, entries, flat, stmts)?;
    flat.put(line, Operation::EndDo { head })?;
    let past = flat.place()?;
    flat.set(head, line, Operation::Do { index, past });
    Ok(())
}

// A loop over pieces.
#[cycle(flattening)]
fn over_pieces(
    alloc: Global,
    entries: &[u32],
    flat: &mut Flat,
    line: u32,
    indices: (u16, u16),
    stmts: &[Stmt],
) -> Result<(), OutOfMemory>
    ensures { OnOk result (AddsForm entries.now flat.old flat.new line (DoIn indices.0 indices.1 (block stmts.now))) }
{
    let (sub, index) = indices;
    let head = flat.reserve(line)?;
    body(alloc, entries, flat, stmts)?;
    flat.put(line, Operation::EndDo { head })?;
    let past = flat.place()?;
    flat.set(head, line, Operation::DoIn { sub, index, past });
    Ok(())
}

// A pardo.
#[cycle(flattening)]
fn pardo(
    alloc: Global,
    entries: &[u32],
    flat: &mut Flat,
    line: u32,
    indices: &[u16],
    wheres: &[Cond],
    stmts: &[Stmt],
) -> Result<(), OutOfMemory>
    ensures { OnOk result (AddsForm entries.now flat.old flat.new line (Pardo indices.now wheres.now (block stmts.now))) }
{
    let head = flat.reserve(line)?;
    tests(flat, line, wheres)?;
    body(alloc, entries, flat, stmts)?;
    let end = flat.place()?;
    flat.put(line, Operation::EndPardo { head })?;
    let indices = Indices::from_slice(alloc, indices)?;
    flat.set(head, line, Operation::Pardo { indices, end });
    Ok(())
}

// The `where` lines of a pardo.
fn tests(flat: &mut Flat, line: u32, wheres: &[Cond]) -> Result<(), OutOfMemory>
    ensures { OnOk result (Adds flat.old flat.new [] (wheres_code line wheres.now)) }
{
    for cond in wheres {
        flat.put(line, Operation::Where { cond: *cond })?;
    }
    Ok(())
}

// An `if` without `else`.
#[cycle(flattening)]
fn branch(
    alloc: Global,
    entries: &[u32],
    flat: &mut Flat,
    line: u32,
    cond: Cond,
    stmts: &[Stmt],
) -> Result<(), OutOfMemory>
    ensures { OnOk result (AddsForm entries.now flat.old flat.new line (If cond (block stmts.now))) }
{
    let head = flat.reserve(line)?;
    body(alloc, entries, flat, stmts)?;
    flat.put(line, Operation::EndIf)?;
    let otherwise = flat.place()?;
    flat.set(head, line, Operation::If { cond, otherwise });
    Ok(())
}

// An `if` with `else`.
#[cycle(flattening)]
fn branches(
    alloc: Global,
    entries: &[u32],
    flat: &mut Flat,
    line: u32,
    cond: Cond,
    stmts: &[Stmt],
    other: &[Stmt],
) -> Result<(), OutOfMemory>
    ensures { OnOk result (AddsForm entries.now flat.old flat.new line (IfElse cond (block stmts.now) (block other.now))) }
{
    let head = flat.reserve(line)?;
    body(alloc, entries, flat, stmts)?;
    let middle = flat.reserve(line)?;
    let otherwise = flat.place()?;
    flat.set(head, line, Operation::If { cond, otherwise });
    body(alloc, entries, flat, other)?;
    flat.put(line, Operation::EndIf)?;
    let behind = flat.place()?;
    flat.set(middle, line, Operation::Else { past: behind });
    Ok(())
}
