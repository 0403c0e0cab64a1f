//! Statements that are one instruction, and an `if` of its parts.

ghost use Rattle.std.specs.Prelude.{◌≡◌, option_map};
ghost use Rattle.sial_syntax.specs.Tree.{IfElse, block, plain_form};
ghost use Rattle.table_verify.specs.Rest.{Gives, seen};
ghost use Rattle.table_verify.specs.Statements as spec;

use crate::copies;
use crate::read_fault::ReadFault;
use crate::rest::{Rest, numbered};
use sial_syntax::{Cond, Form, Stmt, Text};
use sip_tables::Operation;
use std::alloc::Global;

/// A statement that is one instruction with no number in it.
pub fn simple(alloc: Global, operation: &Operation) -> Result<Form, ReadFault>
    ensures { Gives plain_form result (spec.simple operation.now) }
{
    match operation {
        Operation::Assign { target, op, right } => Ok(Form::Assign {
            target: copies::target(alloc, target)?,
            op: *op,
            right: copies::right(alloc, right)?,
        }),
        Operation::Get { block } => Ok(Form::Get {
            block: copies::block(alloc, block)?,
        }),
        Operation::Request { block } => Ok(Form::Request {
            block: copies::block(alloc, block)?,
        }),
        Operation::Put { block, how, from } => Ok(Form::Put {
            block: copies::block(alloc, block)?,
            how: *how,
            from: copies::block(alloc, from)?,
        }),
        Operation::Prepare { block, how, from } => Ok(Form::Prepare {
            block: copies::block(alloc, block)?,
            how: *how,
            from: copies::block(alloc, from)?,
        }),
        Operation::Create { array } => Ok(Form::Create { array: *array }),
        Operation::Delete { array } => Ok(Form::Delete { array: *array }),
        Operation::Allocate { array, at } => Ok(Form::Allocate {
            array: *array,
            at: Vec::from_slice(alloc, at.as_slice())?,
        }),
        Operation::Deallocate { array, at } => Ok(Form::Deallocate {
            array: *array,
            at: Vec::from_slice(alloc, at.as_slice())?,
        }),
        Operation::Collective { into, from } => Ok(Form::Collective {
            into: *into,
            from: *from,
        }),
        Operation::SipBarrier => Ok(Form::SipBarrier),
        Operation::ServerBarrier => Ok(Form::ServerBarrier),
        Operation::PrintScalar { scalar } => Ok(Form::PrintScalar { scalar: *scalar }),
        Operation::Integrals { block } => Ok(Form::Integrals {
            block: copies::block(alloc, block)?,
        }),
        _ => Err(ReadFault::NotAProgram),
    }
}

/// A printed text, if it has this number.
#[tactic(auto, unfolding(crate::specs::Statements::print))]
pub fn print(alloc: Global, number: u32, rest: Rest<'_>) -> Result<(Form, Rest<'_>), ReadFault>
    ensures { Gives (λ x. (plain_form x.0, seen x.1)) result (spec.print number (seen rest.entry)) }
{
    let (text, rest) = numbered(u64::from(number), rest)?;
    let text = Text::from_slice(alloc, text.as_slice())?;
    Ok((Form::Print { text }, rest))
}

/// A call, if it leads to the procedure's first instruction; `entries` are the numbers of these.
#[tactic(auto, unfolding(crate::specs::Statements::call))]
pub fn call<'a>(
    entries: &[u32],
    procedure: u16,
    entry: u32,
    rest: Rest<'a>,
) -> Result<(Form, Rest<'a>), ReadFault>
    ensures { Gives (λ x. (plain_form x.0, seen x.1)) result (spec.call entries.now procedure entry (seen rest.entry)) }
{
    if entry == entries.get(procedure as usize).copied().unwrap_or(0) {
        Ok((Form::Call { proc: procedure }, rest))
    } else {
        Err(ReadFault::NotAProgram)
    }
}

/// An `if` with both branches.
pub fn branches(cond: Cond, then_body: Vec<Stmt>, other: Vec<Stmt>) -> Form
    ensures { plain_form result ≡ IfElse cond (block then_body.items) (block other.items) }
{
    Form::If {
        cond,
        then_body,
        else_body: Some(other),
    }
}
