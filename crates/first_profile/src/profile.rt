//! Which trees are of the first profile.

ghost use Rattle.std.specs.Prelude.{◌≡◌, ◌↔◌, length, IsTrue};
ghost use Rattle.std.specs.List.{list_all};
ghost use Rattle.sial_syntax.specs.Tree.{tree, procedure, block, plain_form, Do};
ghost use Rattle.sial_syntax.specs.declared.program.Proc.{Proc};
ghost use Rattle.sial_syntax.specs.declared.statement.Stmt.{Stmt};
ghost use Rattle.first_profile.specs.FirstTree.{dims_in, IsFirstTree};
ghost use Rattle.first_profile.specs.Looking as spec;

use sial_syntax::{
    ArrayDecl, ArrayKind, Bin, BlockRef, Form, IndexDecl, Kind, Op, Operand, Proc, Program, Range,
    Right, Stmt, Target,
};

/// Whether a program's tree is of the first profile.
pub fn is_first_tree(program: &Program) -> bool
    ensures { IsTrue result ↔ IsFirstTree (tree program.now) }
{
    is_of_profile(program)
}

// The same, part by part.
#[tactic(auto, using(crate::proofs::ProfileLemmas::procedures_listed))]
fn is_of_profile(program: &Program) -> bool
    ensures { result ≡ spec.is_first_tree (tree program.now) }
{
    are_indices(program.indices.as_slice())
        && are_arrays(program.indices.len(), program.arrays.as_slice())
        && are_procedures(program, program.procs.as_slice())
        && is_body(program, program.body.as_slice())
}

// Whether all indices are aoindices.
fn are_indices(indices: &[IndexDecl]) -> bool
    ensures { result ≡ list_all spec.is_ao_index indices.now }
{
    indices.iter().all(|i| is_ao(&i.range))
}

// Whether a range is of ao segments.
fn is_ao(range: &Range) -> bool
    ensures { result ≡ spec.is_ao range.now }
{
    match range {
        Range::Segments { kind, .. } => matches!(kind, Kind::Ao),
        Range::Sub { .. } => false,
    }
}

// Whether all arrays are static and have one index.
fn are_arrays(indices: usize, arrays: &[ArrayDecl]) -> bool
    ensures { result ≡ list_all (spec.is_array indices) arrays.now }
{
    arrays.iter().all(|a| is_array(indices, a))
}

// Whether an array is static and has one index.
fn is_array(indices: usize, array: &ArrayDecl) -> bool
    ensures { result ≡ spec.is_array indices array.now }
{
    is_static(array.kind) && is_one_below(indices, array.dims.as_slice())
}

// Whether a kind is that of static arrays.
fn is_static(kind: ArrayKind) -> bool
    ensures { result ≡ spec.is_static kind }
{
    matches!(kind, ArrayKind::Static)
}

// Whether there is one number, below this one.
fn is_one_below(most: usize, numbers: &[u16]) -> bool
    ensures { result ≡ spec.is_one_below most numbers.now }
{
    match numbers {
        [only] => (*only as usize) < most,
        _ => false,
    }
}

// Whether all procedures are of the profile.
fn are_procedures(program: &Program, procedures: &[Proc]) -> bool
    ensures { result ≡ list_all (λ (q : Proc). spec.is_procedure (tree program.now) (procedure q)) procedures.now }
{
    procedures
        .iter()
        .all(|q| is_body(program, q.body.as_slice()))
}

// Whether a body is of the profile.
#[tactic(auto, using(crate::proofs::ProfileLemmas::forms_listed))]
fn is_body(program: &Program, stmts: &[Stmt]) -> bool
    ensures { result ≡ spec.are_forms (tree program.now) (block stmts.now) }
{
    are_forms(program, stmts)
}

// Whether all statements outside of loops are of the profile.
fn are_forms(program: &Program, stmts: &[Stmt]) -> bool
    ensures { result ≡ list_all (λ (s : Stmt). spec.is_form (tree program.now) (plain_form s.form)) stmts.now }
{
    stmts.iter().all(|s| is_form(program, &s.form))
}

// Whether a statement outside of loops is of the profile.
fn is_form(program: &Program, form: &Form) -> bool
    ensures { result ≡ spec.is_form (tree program.now) (plain_form form.now) }
{
    match form {
        Form::Do { index, body } => is_loop(program, *index, body.as_slice()),
        other => is_simple(program, None, other),
    }
}

// Whether a loop is over an index that is there, and its statements are of the profile.
#[tactic(auto, using(crate::proofs::ProfileLemmas::simple_listed))]
fn is_loop(program: &Program, index: u16, stmts: &[Stmt]) -> bool
    ensures { result ≡ spec.is_form (tree program.now) (Do index (block stmts.now)) }
{
    (index as usize) < program.indices.len() && are_simple(program, Some(index), stmts)
}

// Whether all statements of a loop are of the profile.
fn are_simple(program: &Program, within: Option<u16>, stmts: &[Stmt]) -> bool
    ensures { result ≡ list_all (λ (s : Stmt). spec.is_simple (tree program.now) within (plain_form s.form)) stmts.now }
{
    stmts.iter().all(|s| is_simple(program, within, &s.form))
}

// Whether a statement that is no loop is of the profile, in the loop over an index or outside.
fn is_simple(program: &Program, within: Option<u16>, form: &Form) -> bool
    ensures { result ≡ spec.is_simple (tree program.now) within (plain_form form.now) }
{
    match form {
        Form::Assign { target, op, right } => is_assignment(program, within, target, *op, right),
        Form::PrintScalar { scalar } => is_scalar(program, *scalar),
        _ => false,
    }
}

// Whether an assignment is of the profile.
fn is_assignment(
    program: &Program,
    within: Option<u16>,
    target: &Target,
    op: Op,
    right: &Right,
) -> bool
    ensures { result ≡ spec.is_assignment (tree program.now) within target.now op right.now }
{
    match target {
        Target::Block(block) => assigns_block(program, within, block, op, right),
        Target::Scalar(scalar) => assigns_scalar(program, within, *scalar, op, right),
    }
}

// Whether an assignment to a block is of the profile.
fn assigns_block(
    program: &Program,
    within: Option<u16>,
    block: &BlockRef,
    op: Op,
    right: &Right,
) -> bool
    ensures { result ≡ spec.is_block_assignment (tree program.now) within block.now op right.now }
{
    match (op, right) {
        (Op::Set, Right::One(Operand::Number(_))) => is_block(program, within, block),
        (Op::Add, Right::One(Operand::Block(other))) => {
            is_block(program, within, block) && is_block(program, within, other)
        }
        _ => false,
    }
}

// Whether an assignment to a scalar is of the profile.
fn assigns_scalar(
    program: &Program,
    within: Option<u16>,
    scalar: u16,
    op: Op,
    right: &Right,
) -> bool
    ensures { result ≡ spec.is_scalar_assignment (tree program.now) within scalar op right.now }
{
    match (op, right) {
        (Op::Set | Op::Add, Right::One(Operand::Number(_))) => is_scalar(program, scalar),
        (Op::Set, Right::Two(Operand::Block(left), Bin::Times, Operand::Block(other))) => {
            is_scalar(program, scalar)
                && is_block(program, within, left)
                && is_block(program, within, other)
        }
        _ => false,
    }
}

// Whether a scalar is there.
fn is_scalar(program: &Program, scalar: u16) -> bool
    ensures { result ≡ spec.is_scalar (tree program.now) scalar }
{
    (scalar as usize) < program.scalars.len()
}

// Whether a block stands in the loop over its only index, which is its array's.
fn is_block(program: &Program, within: Option<u16>, block: &BlockRef) -> bool
    ensures { result ≡ spec.is_block (tree program.now) within block.now }
{
    match within {
        Some(index) => is_only(block.at.as_slice(), index) && is_over(program, block.array, index),
        None => false,
    }
}

// Whether an array has this index alone.
fn is_over(program: &Program, array: u16, index: u16) -> bool
    ensures { result ≡ spec.is_only (dims_in (tree program.now) array) index }
{
    match program.arrays.get(array as usize) {
        Some(decl) => is_only(decl.dims.as_slice(), index),
        None => false,
    }
}

// Whether an index is the only one.
fn is_only(dims: &[u16], index: u16) -> bool
    ensures { result ≡ spec.is_only dims.now index }
{
    match dims {
        [only] => *only == index,
        _ => false,
    }
}
