//! Whether a program that was read is proper.

ghost use Rattle.std.specs.Prelude.{◌≡◌, ◌+◌, map, sum_by, IfOk, IsTrue, length};
ghost use Rattle.std.specs.List.{enumerate_from, list_all};
ghost use Rattle.sial_syntax.specs.Names.{is_name as spec_is_name};
ghost use Rattle.sial_syntax.specs.Numbering.{statements as statements_of, statements_in};
ghost use Rattle.sial_syntax.specs.Proper as proper;
ghost use Rattle.sial_syntax.specs.Tree.{block, plain_form, procedure as spec_procedure, tree};
ghost use Rattle.table_verify.specs.Numbering as heads;
ghost use Rattle.table_verify.specs.Passing as spec;

use crate::names::is_name;
use crate::parts::{has_indices, is_line, is_number};
use crate::proper::has_body;
use sial_syntax::{ArrayDecl, Bound, Form, IndexDecl, Proc, Program, Range, Stmt, Text};
use sip_files::OutOfMemory;

/// Whether a program that was read passes.
pub fn passes(program: &Program) -> Result<bool, OutOfMemory>
    ensures value { IfOk result (λ b. b ≡ spec.passes (tree program.now)) }
    ensures numbers { IfOk result (λ b. IsTrue b → IsTrue (spec.all_numbers (tree program.now))) }
{
    let count = all_statements(program)?;
    Ok(passes_lists(program) && passes_names(program) && passes_bodies(program) && count <= 65535)
}

/// Whether a program's name and what it declares is proper.
pub fn passes_heads(program: &Program) -> bool
    ensures { result ≡ heads.passes_heads (tree program.now) }
{
    passes_lists(program)
        && passes_names(program)
        && has_procedures(program, program.procs.as_slice())
}

// Whether no list is longer than it may be.
fn passes_lists(program: &Program) -> bool
    ensures { result ≡ spec.passes_lists (tree program.now) }
{
    program.indices.len() <= 256
        && program.arrays.len() <= 256
        && program.scalars.len() <= 256
        && program.procs.len() <= 256
}

// Whether names are names, and what is declared is proper.
fn passes_names(program: &Program) -> bool
    ensures { result ≡ spec.passes_names (tree program.now) }
{
    is_name(program.name.as_slice())
        && are_indices(program.indices.as_slice())
        && are_arrays(program, program.arrays.as_slice())
        && are_names(program.scalars.as_slice())
}

// Whether the parts of all statements are there.
fn passes_bodies(program: &Program) -> bool
    ensures value { result ≡ spec.passes_bodies (tree program.now) }
    ensures numbers { IsTrue result → IsTrue (spec.all_numbers (tree program.now)) }
{
    has_procedures(program, program.procs.as_slice()) && has_body(program, program.body.as_slice())
}

// Whether the names of procedures are such, and the parts of their statements are there.
fn has_procedures(program: &Program, procedures: &[Proc]) -> bool
    ensures value { result ≡ list_all (spec.passes_procedure (tree program.now)) (map spec_procedure procedures.now) }
    ensures numbers { IsTrue result → IsTrue (spec.procedures_numbers (map spec_procedure procedures.now)) }
{
    for procedure in procedures {
        if !is_name(procedure.name.as_slice()) || !has_body(program, procedure.body.as_slice()) {
            return false;
        }
    }
    true
}

// Whether a bound is a number, or names a constant.
fn is_bound(bound: &Bound) -> bool
    ensures { result ≡ proper.proper_bound bound.now }
{
    match bound {
        Bound::Number(number) => is_number(*number),
        Bound::Named(name) => is_name(name.as_slice()),
    }
}

// Whether a range is proper at the place of its index.
fn is_range(place: usize, range: &Range) -> bool
    ensures { result ≡ proper.proper_range place range.now }
{
    match range {
        Range::Segments { lo, hi, .. } => is_bound(lo) && is_bound(hi),
        Range::Sub { super_index } => (*super_index as usize) < place,
    }
}

// Whether an index is proper at its place.
fn is_index(place: usize, index: &IndexDecl) -> bool
    ensures { result ≡ proper.proper_index (place, index.now) }
{
    is_name(index.name.as_slice()) && is_line(index.line) && is_range(place, &index.range)
}

// Whether all indices are proper.
fn are_indices(indices: &[IndexDecl]) -> bool
    ensures { result ≡ list_all proper.proper_index (enumerate_from 0 indices.now) }
{
    for (place, index) in indices.iter().enumerate() {
        if !is_index(place, index) {
            return false;
        }
    }
    true
}

// Whether an array is proper.
fn is_array(program: &Program, array: &ArrayDecl) -> bool
    ensures { result ≡ proper.proper_array (tree program.now) array.now }
{
    is_name(array.name.as_slice())
        && is_line(array.line)
        && (1..=6).contains(&array.dims.len())
        && has_indices(program, array.dims.as_slice())
}

// Whether all arrays are proper.
fn are_arrays(program: &Program, arrays: &[ArrayDecl]) -> bool
    ensures { result ≡ list_all (proper.proper_array (tree program.now)) arrays.now }
{
    arrays.iter().all(|array| is_array(program, array))
}

// Whether all of these are names.
fn are_names(names: &[Text]) -> bool
    ensures { result ≡ list_all spec_is_name names.now }
{
    names.iter().all(|name| is_name(name.as_slice()))
}

// A sum, where it is no larger than a number may be.
fn plus(a: usize, b: usize) -> Result<usize, OutOfMemory>
    ensures { IfOk result (λ n. n ≡ a + b) }
{
    match a.checked_add(b) {
        Some(sum) => Ok(sum),
        None => Err(OutOfMemory),
    }
}

// How many statements a program has.
fn all_statements(program: &Program) -> Result<usize, OutOfMemory>
    ensures { IfOk result (λ n. n ≡ proper.all_statements (tree program.now)) }
{
    let procedures = procedures_statements(program.procs.as_slice())?;
    plus(statements(program.body.as_slice())?, procedures)
}

// How many statements procedures have together.
fn procedures_statements(procedures: &[Proc]) -> Result<usize, OutOfMemory>
    ensures { IfOk result (λ n. n ≡ sum_by (λ q. statements_of q.body) (map spec_procedure procedures.now)) }
{
    let mut sum = 0usize;
    for procedure in procedures {
        sum = plus(sum, statements(procedure.body.as_slice())?)?;
    }
    Ok(sum)
}

// How many statements there are, with those inside.
#[cycle(counting)]
fn statements(stmts: &[Stmt]) -> Result<usize, OutOfMemory>
    ensures { IfOk result (λ n. n ≡ statements_of (block stmts.now)) }
{
    let mut sum = 0usize;
    for stmt in stmts {
        sum = plus(sum, statements_inside(&stmt.form)?)?;
    }
    Ok(sum)
}

// How many statements a statement is, with those inside.
#[cycle(counting)]
fn statements_inside(form: &Form) -> Result<usize, OutOfMemory>
    ensures { IfOk result (λ n. n ≡ statements_in (plain_form form.now)) }
{
    match form {
        Form::Do { body, .. } => plus(1, statements(body.as_slice())?),
        Form::DoIn { body, .. } => plus(1, statements(body.as_slice())?),
        Form::Pardo { body, .. } => plus(1, statements(body.as_slice())?),
        Form::If {
            then_body,
            else_body: None,
            ..
        } => plus(1, statements(then_body.as_slice())?),
        Form::If {
            then_body,
            else_body: Some(other),
            ..
        } => {
            let both = plus(
                statements(then_body.as_slice())?,
                statements(other.as_slice())?,
            )?;
            plus(1, both)
        }
        _ => Ok(1),
    }
}
