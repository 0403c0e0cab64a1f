//! Whether the statements of a program are proper.

ghost use Rattle.std.specs.Prelude.{◌≡◌, IsTrue};
ghost use Rattle.sial_syntax.specs.Proper as spec;
ghost use Rattle.table_verify.specs.Numbers.{body_numbers, form_numbers};
ghost use Rattle.sial_syntax.specs.Tree.{Allocate, block, plain_form, tree};

use crate::names::is_text;
use crate::parts::{
    has_array, has_block, has_condition, has_conditions, has_index, has_indices, has_procedure,
    has_right, has_scalar, has_slots, has_target, is_line, is_write,
};
use sial_syntax::{Form, Program, Slot, Stmt};

/// Whether the parts of all statements are there.
#[cycle(looking)]
pub fn has_body(program: &Program, stmts: &[Stmt]) -> bool
    ensures value { result ≡ spec.proper_body (tree program.now) (block stmts.now) }
    ensures numbers { IsTrue result → IsTrue (body_numbers (block stmts.now)) }
{
    for stmt in stmts {
        if !is_line(stmt.line) || !has_form(program, &stmt.form) {
            return false;
        }
    }
    true
}

// Whether the parts of a statement are there.
#[cycle(looking)]
fn has_form(program: &Program, form: &Form) -> bool
    ensures value { result ≡ spec.proper_form (tree program.now) (plain_form form.now) }
    ensures numbers { IsTrue result → IsTrue (form_numbers (plain_form form.now)) }
{
    match form {
        Form::Do { index, body } => has_index(program, *index)
            && has_body(program, body.as_slice()),
        Form::DoIn { sub, index, body } => {
            has_index(program, *sub)
                && has_index(program, *index)
                && has_body(program, body.as_slice())
        }
        Form::Pardo {
            indices,
            wheres,
            body,
        } => {
            (1..=12).contains(&indices.len())
                && has_indices(program, indices.as_slice())
                && has_conditions(program, wheres.as_slice())
                && has_body(program, body.as_slice())
        }
        Form::If {
            cond,
            then_body,
            else_body: None,
        } => has_condition(program, cond) && has_body(program, then_body.as_slice()),
        Form::If {
            cond,
            then_body,
            else_body: Some(other),
        } => {
            has_condition(program, cond)
                && has_body(program, then_body.as_slice())
                && has_body(program, other.as_slice())
        }
        Form::Call { proc } => has_procedure(program, *proc),
        Form::Assign { target, right, .. } => {
            has_target(program, target) && has_right(program, right)
        }
        Form::Get { block } => has_block(program, block),
        Form::Request { block } => has_block(program, block),
        Form::Put { block, how, from } => {
            has_block(program, block) && is_write(*how) && has_block(program, from)
        }
        Form::Prepare { block, how, from } => {
            has_block(program, block) && is_write(*how) && has_block(program, from)
        }
        Form::Create { array } => has_array(program, *array),
        Form::Delete { array } => has_array(program, *array),
        Form::Allocate { array, at } => has_slotted(program, *array, at.as_slice()),
        Form::Deallocate { array, at } => has_slotted(program, *array, at.as_slice()),
        Form::Collective { into, from } => has_scalar(program, *into) && has_scalar(program, *from),
        Form::SipBarrier => true,
        Form::ServerBarrier => true,
        Form::Print { text } => is_text(text.as_slice()),
        Form::PrintScalar { scalar } => has_scalar(program, *scalar),
        Form::Integrals { block } => has_block(program, block),
    }
}

// Whether an array with slots is there, with one slot to six.
fn has_slotted(program: &Program, array: u16, at: &[Slot]) -> bool
    ensures { result ≡ spec.proper_form (tree program.now) (Allocate array at.now) }
{
    has_array(program, array) && (1..=6).contains(&at.len()) && has_slots(program, at)
}
