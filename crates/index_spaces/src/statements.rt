//! The third round of refusals: statements by line.

ghost use Rattle.std.specs.Prelude.{◌≡◌, map};
ghost use Rattle.sial_syntax.specs.Tree.{block, plain_form, procedure, tree};
ghost use Rattle.index_spaces.specs.Found.{seen_at};
ghost use Rattle.index_spaces.specs.Refusing as spec;
ghost use Rattle.index_spaces.specs.Walk as walk;

use crate::fault::{Found, Refusal, SpaceKind, sooner};
use crate::spaces::Spaces;
use crate::within::statement_outside;
use sial_syntax::{Form, Proc, Program, Stmt};

/// The first refusal of statements.
pub fn statements_refused<'a>(spaces: &Spaces, program: &'a Program) -> Option<Found<'a>>
    ensures { seen_at result ≡ spec.statements_refusal (tree program.now) spaces.now.spaces }
{
    let first = first_in(spaces, program, program.body.as_slice(), None);
    first_of_procedures(spaces, program, program.procs.as_slice(), first)
}

// The one that comes first of a refusal and those of procedures.
fn first_of_procedures<'a>(
    spaces: &Spaces,
    program: &'a Program,
    procs: &[Proc],
    first: Option<Found<'a>>,
) -> Option<Found<'a>>
    ensures { seen_at result ≡ walk.first_of_all (tree program.now) spaces.now.spaces (map procedure procs.now) (seen_at first.entry) }
{
    let mut first = first;
    for procedure in procs {
        first = first_in(spaces, program, procedure.body.as_slice(), first);
    }
    first
}

// The one that comes first of a refusal and those of a body.
#[cycle(walking)]
fn first_in<'a>(
    spaces: &Spaces,
    program: &'a Program,
    stmts: &[Stmt],
    first: Option<Found<'a>>,
) -> Option<Found<'a>>
    ensures { seen_at result ≡ walk.first_in (tree program.now) spaces.now.spaces (block stmts.now) (seen_at first.entry) }
{
    let mut first = first;
    for stmt in stmts {
        let refused = statement_refused(spaces, program, stmt.line, &stmt.form);
        first = first_inside(spaces, program, &stmt.form, sooner(first, refused));
    }
    first
}

// The one that comes first of a refusal and those of the statements inside a statement.
#[cycle(walking)]
fn first_inside<'a>(
    spaces: &Spaces,
    program: &'a Program,
    form: &Form,
    first: Option<Found<'a>>,
) -> Option<Found<'a>>
    ensures { seen_at result ≡ walk.first_inside (tree program.now) spaces.now.spaces (plain_form form.now) (seen_at first.entry) }
{
    match form {
        Form::Do { body, .. } | Form::DoIn { body, .. } | Form::Pardo { body, .. } => {
            first_in(spaces, program, body.as_slice(), first)
        }
        Form::If {
            then_body,
            else_body,
            ..
        } => {
            let first = first_in(spaces, program, then_body.as_slice(), first);
            match else_body {
                Some(body) => first_in(spaces, program, body.as_slice(), first),
                None => first,
            }
        }
        _ => first,
    }
}

// The refusal of a statement.
fn statement_refused<'a>(
    spaces: &Spaces,
    program: &'a Program,
    line: u32,
    form: &Form,
) -> Option<Found<'a>>
    ensures { seen_at result ≡ spec.statement_refusal (tree program.now) spaces.now.spaces line (plain_form form.now) }
{
    match form {
        Form::Pardo { indices, .. } => {
            let name = first_name(program, indices.as_slice());
            box_refused(name, line, spaces.box_len(indices.as_slice()))
        }
        _ => outside_refused(program, line, statement_outside(spaces, program, form)),
    }
}

// The refusal of a pardo whose box has so many tuples.
fn box_refused(name: &[u8], line: u32, tuples: u64) -> Option<Found<'_>>
    ensures { seen_at result ≡ spec.box_refusal name.now line tuples }
{
    if tuples > 1 << 32 {
        let refusal = Refusal {
            kind: SpaceKind::TooManyBlocks,
            name,
            value: tuples,
        };
        Some(Found { line, refusal })
    } else {
        None
    }
}

// The refusal of a statement with an index that doesn't lie within the declared one.
fn outside_refused(program: &Program, line: u32, outside: Option<u16>) -> Option<Found<'_>>
    ensures { seen_at result ≡ spec.outside_refusal (tree program.now) line outside }
{
    match outside {
        Some(index) => {
            let refusal = Refusal {
                kind: SpaceKind::NotWithin,
                name: index_name(program, index),
                value: line as u64,
            };
            Some(Found { line, refusal })
        }
        None => None,
    }
}

// The name of the first of some indices.
fn first_name<'a>(program: &'a Program, indices: &[u16]) -> &'a [u8]
    ensures { result.now ≡ spec.first_name (tree program.now) indices.now }
{
    match indices {
        [] => &[],
        [index, ..] => index_name(program, *index),
    }
}

// The name of an index.
fn index_name(program: &Program, index: u16) -> &[u8]
    ensures { result.now ≡ spec.index_name (tree program.now) index }
{
    match program.indices.get(index as usize) {
        Some(index) => index.name.as_slice(),
        None => &[],
    }
}
