//! How many instructions statements take.

ghost use Rattle.std.specs.Prelude.{◌≡◌, IfOk};
ghost use Rattle.sial_syntax.specs.Numbering.{size, sizes as sizes_of};
ghost use Rattle.sial_syntax.specs.Tree.{block, plain_form};

use crate::numbers::plus;
use sial_syntax::{Form, Stmt};
use sip_files::OutOfMemory;

/// How many instructions statements take together.
#[cycle(counting)]
pub fn sizes(stmts: &[Stmt]) -> Result<usize, OutOfMemory>
    ensures { IfOk result (λ n. n ≡ sizes_of (block stmts.now)) }
{
    let mut sum = 0usize;
    for stmt in stmts {
        sum = plus(sum, form_size(&stmt.form)?)?;
    }
    Ok(sum)
}

// How many instructions a statement takes.
#[cycle(counting)]
fn form_size(form: &Form) -> Result<usize, OutOfMemory>
    ensures { IfOk result (λ n. n ≡ size (plain_form form.now)) }
{
    match form {
        Form::Do { body, .. } => plus(sizes(body.as_slice())?, 2),
        Form::DoIn { body, .. } => plus(sizes(body.as_slice())?, 2),
        Form::Pardo { wheres, body, .. } => plus(wheres.len(), plus(sizes(body.as_slice())?, 2)?),
        Form::If {
            then_body,
            else_body: None,
            ..
        } => plus(sizes(then_body.as_slice())?, 2),
        Form::If {
            then_body,
            else_body: Some(other),
            ..
        } => plus(
            sizes(then_body.as_slice())?,
            plus(sizes(other.as_slice())?, 3)?,
        ),
        _ => Ok(1),
    }
}
