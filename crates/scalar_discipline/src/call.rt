//! The calls of a body, in order.

ghost use Rattle.std.specs.Prelude.{◌≡◌, [], false, IfOk, OnOk, map};
ghost use Rattle.sial_syntax.specs.Tree.{block, plain_form, procedure};
ghost use Rattle.scalar_discipline.specs.Calls as spec;

use sial_syntax::{Form, Proc, Stmt};
use std::alloc::{AllocError, Global};

/// A call: its text line, the procedure that is called, and whether it stands within a pardo.
#[derive(Clone, Copy)]
pub struct Call {
    pub line: u32,
    pub procedure: u16,
    pub within: bool,
}

/// The calls of each procedure.
pub fn calls(alloc: Global, procs: &[Proc]) -> Result<Vec<Vec<Call>>, AllocError>
    ensures { IfOk result (λ calls. spec.lists calls.items ≡ map spec.calls_within (map procedure procs.now)) }
{
    let mut calls = Vec::with_capacity(alloc, procs.len())?;
    for procedure in procs {
        calls.push(body_calls(alloc, procedure.body.as_slice())?)?;
    }
    Ok(calls)
}

/// The calls of a body outside of pardos.
pub fn body_calls(alloc: Global, stmts: &[Stmt]) -> Result<Vec<Call>, AllocError>
    ensures { IfOk result (λ calls. calls.items ≡ spec.with_body false (block stmts.now) []) }
{
    let mut calls = Vec::new(alloc);
    gather(false, stmts, &mut calls)?;
    Ok(calls)
}

// Adds the calls of a body.
#[cycle(walking)]
fn gather(within: bool, stmts: &[Stmt], into: &mut Vec<Call>) -> Result<(), AllocError>
    ensures { OnOk result (into.new.items ≡ spec.with_body within (block stmts.now) into.old.items) }
{
    for stmt in stmts {
        gather_inside(within, stmt.line, &stmt.form, into)?;
    }
    Ok(())
}

// Adds the call that a statement is, and those inside it.
#[cycle(walking)]
fn gather_inside(
    within: bool,
    line: u32,
    form: &Form,
    into: &mut Vec<Call>,
) -> Result<(), AllocError>
    ensures { OnOk result (into.new.items ≡ spec.with_form within line (plain_form form.now) into.old.items) }
{
    match form {
        Form::Call { proc } => {
            let procedure = *proc;
            into.push(Call {
                line,
                procedure,
                within,
            })?;
            Ok(())
        }
        Form::Do { body, .. } | Form::DoIn { body, .. } => gather(within, body.as_slice(), into),
        Form::Pardo { body, .. } => gather(true, body.as_slice(), into),
        Form::If {
            then_body,
            else_body,
            ..
        } => {
            gather(within, then_body.as_slice(), into)?;
            match else_body {
                Some(body) => gather(within, body.as_slice(), into),
                None => Ok(()),
            }
        }
        _ => Ok(()),
    }
}
