//! Statements and bodies.

ghost use Rattle.std.specs.Prelude.{◌≡◌, ◌∷◌, ◌++◌, [], flat_map};
ghost use Rattle.sial_parser.specs.declared.keyword.Keyword.TheVariants as keys;
ghost use Rattle.sial_parser.specs.declared.word.Symbol.TheVariants.{Key};
ghost use Rattle.sial_syntax.specs.Tree as syntax;
ghost use Rattle.sial_syntax.specs.Tree.{tree};
ghost use Rattle.sip_files.specs.Sink.{Wrote};
ghost use Rattle.sial_printer.specs.Lines as spec;
ghost use Rattle.sial_printer.specs.Parts.{all_symbols};
ghost use Rattle.sial_printer.specs.Spelling.{text_of};
ghost use Rattle.sial_printer.specs.Symbols.{cond_symbols};

use crate::line::{cond_parts, line};
use crate::part::Part;
use crate::print::all;
use crate::simple::simple;
use sial_parser::Keyword;
use sial_syntax::{Cond, Form, Program, Stmt};
use sip_files::{Failed, Sink};

/// Statements in order.
#[cycle(printing)]
pub fn statements<K: Sink>(program: &Program, sink: &mut K, stmts: &[Stmt]) -> Result<(), Failed>
    ensures { Wrote (K.written sink.old) (K.written sink.new) (K.faults sink.old) (K.faults sink.new) (K.kept sink.old) (K.kept sink.new) (text_of (spec.statements (tree program.now) (syntax.block stmts.now))) result }
{
    for stmt in stmts {
        statement(program, sink, &stmt.form)?;
    }
    Ok(())
}

/// Statements, and the line of the end word behind them.
#[cycle(printing)]
pub fn closed<K: Sink>(
    program: &Program,
    sink: &mut K,
    body: &[Stmt],
    key: Keyword,
    parts: &[Part],
) -> Result<(), Failed>
    ensures { Wrote (K.written sink.old) (K.written sink.new) (K.faults sink.old) (K.faults sink.new) (K.kept sink.old) (K.kept sink.new) (text_of (spec.statements (tree program.now) (syntax.block body.now) ++ (Key key ∷ all_symbols (tree program.now) parts.now) ∷ [])) result }
{
    statements(program, sink, body)?;
    line(program, sink, key, parts)
}

// What one statement says.
#[cycle(printing)]
fn statement<K: Sink>(program: &Program, sink: &mut K, form: &Form) -> Result<(), Failed>
    ensures { Wrote (K.written sink.old) (K.written sink.new) (K.faults sink.old) (K.faults sink.new) (K.kept sink.old) (K.kept sink.new) (text_of (spec.statement (tree program.now) (syntax.plain_form form.now))) result }
{
    match form {
        Form::Do { index, body } => do_loop(program, sink, *index, body.as_slice()),
        Form::DoIn { sub, index, body } => do_in(program, sink, *sub, *index, body.as_slice()),
        Form::Pardo {
            indices,
            wheres,
            body,
        } => pardo(
            program,
            sink,
            indices.as_slice(),
            wheres.as_slice(),
            body.as_slice(),
        ),
        Form::If {
            cond,
            then_body,
            ..
        } => {
            first_branch(program, sink, cond, then_body.as_slice())?;
            last_branch(program, sink, form)
        }
        _ => simple(program, sink, form),
    }
}

// `do i`
#[cycle(printing)]
fn do_loop<K: Sink>(
    program: &Program,
    sink: &mut K,
    index: u16,
    body: &[Stmt],
) -> Result<(), Failed>
    ensures { Wrote (K.written sink.old) (K.written sink.new) (K.faults sink.old) (K.faults sink.new) (K.kept sink.old) (K.kept sink.new) (text_of (spec.statement (tree program.now) (syntax.Do index (syntax.block body.now)))) result }
{
    let index = [Part::Index(index)];
    line(program, sink, Keyword::Do, &index)?;
    closed(program, sink, body, Keyword::EndDo, &index)
}

// `do ii in i`
#[cycle(printing)]
fn do_in<K: Sink>(
    program: &Program,
    sink: &mut K,
    sub: u16,
    index: u16,
    body: &[Stmt],
) -> Result<(), Failed>
    ensures { Wrote (K.written sink.old) (K.written sink.new) (K.faults sink.old) (K.faults sink.new) (K.kept sink.old) (K.kept sink.new) (text_of (spec.statement (tree program.now) (syntax.DoIn sub index (syntax.block body.now)))) result }
{
    let both = [Part::Index(sub), Part::Key(Keyword::In), Part::Index(index)];
    line(program, sink, Keyword::Do, &both)?;
    closed(program, sink, body, Keyword::EndDo, &[Part::Index(sub)])
}

#[cycle(printing)]
fn pardo<K: Sink>(
    program: &Program,
    sink: &mut K,
    indices: &[u16],
    wheres: &[Cond],
    body: &[Stmt],
) -> Result<(), Failed>
    ensures { Wrote (K.written sink.old) (K.written sink.new) (K.faults sink.old) (K.faults sink.new) (K.kept sink.old) (K.kept sink.new) (text_of (spec.statement (tree program.now) (syntax.Pardo indices.now wheres.now (syntax.block body.now)))) result }
{
    let indices = [Part::Indices(indices)];
    line(program, sink, Keyword::Pardo, &indices)?;
    all(program, sink, wheres)?;
    closed(program, sink, body, Keyword::EndPardo, &indices)
}

// `if`, and what stands behind it
#[cycle(printing)]
fn first_branch<K: Sink>(
    program: &Program,
    sink: &mut K,
    cond: &Cond,
    body: &[Stmt],
) -> Result<(), Failed>
    ensures { Wrote (K.written sink.old) (K.written sink.new) (K.faults sink.old) (K.faults sink.new) (K.kept sink.old) (K.kept sink.new) (text_of ((Key keys.If ∷ cond_symbols (tree program.now) cond.now) ∷ spec.statements (tree program.now) (syntax.block body.now))) result }
{
    line(program, sink, Keyword::If, &cond_parts(cond))?;
    statements(program, sink, body)
}

// What stands behind the first body of an `if`
#[cycle(printing)]
fn last_branch<K: Sink>(program: &Program, sink: &mut K, form: &Form) -> Result<(), Failed>
    ensures { Wrote (K.written sink.old) (K.written sink.new) (K.faults sink.old) (K.faults sink.new) (K.kept sink.old) (K.kept sink.new) (text_of (spec.last_branch (tree program.now) (syntax.plain_form form.now))) result }
{
    match form {
        Form::If {
            else_body: Some(other),
            ..
        } => other_branch(program, sink, other.as_slice()),
        _ => line(program, sink, Keyword::EndIf, &[]),
    }
}

// `else`, what stands behind it, and the end
#[cycle(printing)]
fn other_branch<K: Sink>(program: &Program, sink: &mut K, body: &[Stmt]) -> Result<(), Failed>
    ensures { Wrote (K.written sink.old) (K.written sink.new) (K.faults sink.old) (K.faults sink.new) (K.kept sink.old) (K.kept sink.new) (text_of ((Key keys.Else ∷ []) ∷ (spec.statements (tree program.now) (syntax.block body.now) ++ (Key keys.EndIf ∷ []) ∷ []))) result }
{
    line(program, sink, Keyword::Else, &[])?;
    closed(program, sink, body, Keyword::EndIf, &[])
}
