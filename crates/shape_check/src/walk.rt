//! The first fault of statements, one after another.

ghost use Rattle.std.specs.Prelude.{◌≡◌, ◌++◌, [], ◌∷◌, map, IfOk};
ghost use Rattle.sial_syntax.specs.Tree.{block, plain_form, procedure};
ghost use Rattle.shape_check.specs.Known.{IsKnown, tree_of};
ghost use Rattle.shape_check.specs.Refused.{seen};
ghost use Rattle.shape_check.specs.Walk as spec;

use crate::declared::Declared;
use crate::fault::{ShapeFault, sooner};
use crate::statements::form_breaks;
use sial_syntax::{Form, Proc, Stmt};
use std::alloc::{AllocError, Global};

/// The earlier of a fault and the first one of procedures.
pub fn first_of_procedures(
    alloc: Global,
    declared: &Declared,
    procs: &[Proc],
    first: Option<ShapeFault>,
) -> Result<Option<ShapeFault>, AllocError>
    requires { IsKnown declared.now }
    ensures { IfOk result (λ it. seen it ≡ spec.first_of_procedures (tree_of declared.now) (map procedure procs.now) (seen first)) }
{
    let mut first = first;
    for procedure in procs {
        first = first_in(alloc, declared, &[], procedure.body.as_slice(), first)?;
    }
    Ok(first)
}

/// The earlier of a fault and the first one of a body.
#[cycle(walking)]
pub fn first_in(
    alloc: Global,
    declared: &Declared,
    bound: &[u16],
    stmts: &[Stmt],
    first: Option<ShapeFault>,
) -> Result<Option<ShapeFault>, AllocError>
    requires { IsKnown declared.now }
    ensures { IfOk result (λ found. seen found ≡ spec.first_in (tree_of declared.now) bound.now (block stmts.now) (seen first)) }
{
    let mut first = first;
    for stmt in stmts {
        let broken = form_breaks(alloc, declared, bound, &stmt.form)?;
        let here = sooner(first, broken.told(stmt.line));
        first = first_inside(alloc, declared, bound, &stmt.form, here)?;
    }
    Ok(first)
}

// The earlier of a fault and the first one of the statements inside a statement.
#[cycle(walking)]
fn first_inside(
    alloc: Global,
    declared: &Declared,
    bound: &[u16],
    form: &Form,
    first: Option<ShapeFault>,
) -> Result<Option<ShapeFault>, AllocError>
    requires { IsKnown declared.now }
    ensures { IfOk result (λ found. seen found ≡ spec.first_inside (tree_of declared.now) bound.now (plain_form form.now) (seen first)) }
{
    match form {
        Form::Do { index, body } => {
            let inner = bound_within(alloc, &[*index], bound)?;
            first_in(alloc, declared, inner.as_slice(), body.as_slice(), first)
        }
        Form::DoIn { sub, body, .. } => {
            let inner = bound_within(alloc, &[*sub], bound)?;
            first_in(alloc, declared, inner.as_slice(), body.as_slice(), first)
        }
        Form::Pardo { indices, body, .. } => {
            let inner = bound_within(alloc, indices.as_slice(), bound)?;
            first_in(alloc, declared, inner.as_slice(), body.as_slice(), first)
        }
        Form::If {
            then_body,
            else_body,
            ..
        } => {
            let first = first_in(alloc, declared, bound, then_body.as_slice(), first)?;
            match else_body {
                Some(body) => first_in(alloc, declared, bound, body.as_slice(), first),
                None => Ok(first),
            }
        }
        _ => Ok(first),
    }
}

// The indices bound in the body of a statement that binds some.
fn bound_within(alloc: Global, indices: &[u16], bound: &[u16]) -> Result<Vec<u16>, AllocError>
    ensures { IfOk result (λ inner. inner.items ≡ indices.now ++ bound.now) }
{
    let mut inner = Vec::from_slice(alloc, indices)?;
    inner.extend_from_slice(bound)?;
    Ok(inner)
}
