//! All statements of a program in one list.

ghost use Rattle.std.specs.Prelude.{◌≡◌, map, IfOk, OnOk};
ghost use Rattle.sial_syntax.specs.Tree.{block, plain_form, procedure, tree};
ghost use Rattle.scalar_discipline.specs.Flat.{all_placed, seen, sides_of, with_body, with_all, with_inner};

use crate::standing::{Standing, sides_among};
use sial_syntax::{Form, Proc, Program, Stmt};
use std::alloc::{AllocError, Global};

/// A statement with its text line and the sides on which it stands.
#[derive(Clone, Copy)]
pub struct Placed<'a> {
    pub line: u32,
    pub form: &'a Form,
    pub sides: Standing,
}

// Adds the statements of a body that has these sides.
#[cycle(walking)]
fn flatten<'a>(
    own: Standing,
    within: bool,
    stmts: &'a [Stmt],
    all: &mut Vec<Placed<'a>>,
) -> Result<(), AllocError>
    ensures { OnOk result (seen all.new.items ≡ with_body (sides_of own) within (block stmts.now) (seen all.old.items)) }
{
    for stmt in stmts {
        all.push(Placed {
            line: stmt.line,
            form: &stmt.form,
            sides: own.at(within),
        })?;
        flatten_inside(own, within, &stmt.form, all)?;
    }
    Ok(())
}

// Adds the statements inside a statement.
#[cycle(walking)]
fn flatten_inside<'a>(
    own: Standing,
    within: bool,
    form: &'a Form,
    all: &mut Vec<Placed<'a>>,
) -> Result<(), AllocError>
    ensures { OnOk result (seen all.new.items ≡ with_inner (sides_of own) within (plain_form form.now) (seen all.old.items)) }
{
    match form {
        Form::Do { body, .. } | Form::DoIn { body, .. } => {
            flatten(own, within, body.as_slice(), all)
        }
        Form::Pardo { body, .. } => flatten(own, true, body.as_slice(), all),
        Form::If {
            then_body,
            else_body,
            ..
        } => {
            flatten(own, within, then_body.as_slice(), all)?;
            match else_body {
                Some(body) => flatten(own, within, body.as_slice(), all),
                None => Ok(()),
            }
        }
        _ => Ok(()),
    }
}

/// All statements of a program whose procedures have these sides.
pub fn all_placed<'a>(
    alloc: Global,
    program: &'a Program,
    sides: &[Standing],
) -> Result<Vec<Placed<'a>>, AllocError>
    ensures { IfOk result (λ all. seen all.items ≡ all_placed (tree program.now) (map sides_of sides.now)) }
{
    let mut all = Vec::new(alloc);
    let outside = Standing {
        outer: true,
        inner: false,
    };
    flatten(outside, false, program.body.as_slice(), &mut all)?;
    flatten_procedures(sides, program.procs.as_slice(), &mut all)?;
    Ok(all)
}

// Adds the statements of procedures.
fn flatten_procedures<'a>(
    sides: &[Standing],
    procs: &'a [Proc],
    all: &mut Vec<Placed<'a>>,
) -> Result<(), AllocError>
    ensures { OnOk result (seen all.new.items ≡ with_all (map sides_of sides.now) (map procedure procs.now) (seen all.old.items)) }
{
    for (place, procedure) in procs.iter().enumerate() {
        let own = sides_among(sides, place);
        flatten(own, false, procedure.body.as_slice(), all)?;
    }
    Ok(())
}
