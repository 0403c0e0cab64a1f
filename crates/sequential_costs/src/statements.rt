//! The steps of statements.

ghost use Rattle.std.specs.Prelude.{◌≡◌, ◌+◌, ◌*◌, ◌^◌, ◌≤◌, slice_index_or};
ghost use Rattle.sequential_costs.specs.Called.{among};
ghost use Rattle.sequential_costs.specs.Over.{over};
ghost use Rattle.sial_meaning.specs.Costs as spec;
ghost use Rattle.sial_meaning.specs.Costs.{capped};
ghost use Rattle.sial_syntax.specs.Boxes.{volume};
ghost use Rattle.sial_syntax.specs.Spaces.{box_of};
ghost use Rattle.sial_syntax.specs.Tree.{block, plain_form};
ghost use Rattle.sequential_costs.specs.Cuttings.{AreCuttings};

use crate::arithmetic::{plus, turns};
use crate::cutting::{Cutting, pieces_at};
use crate::reads::shared_blocks;
use index_spaces::Spaces;
use sial_syntax::{ArrayDecl, Form, Stmt};

/// The steps of statements, where the procedures have these.
#[cycle(counting)]
#[tactic(auto, using(crate::proofs::SumLemmas::at_most, crate::proofs::SumLemmas::one_more))]
pub fn body_steps(
    spaces: &Spaces,
    arrays: &[ArrayDecl],
    cuttings: &[Cutting],
    calls: &[u64],
    stmts: &[Stmt],
) -> u64
    requires { AreCuttings spaces.now.spaces cuttings.now }
    ensures sum { result ≡ spec.block_cost (over spaces.now.spaces arrays.now) (among calls.now) (block stmts.now) }
    ensures most { result ≤ 2 ^ 62 + 1 }
{
    let mut steps = 0;
    for stmt in stmts {
        steps = plus(
            steps,
            form_steps(spaces, arrays, cuttings, calls, &stmt.form),
        );
    }
    steps
}

// The steps of a statement; both branches of an `if` count.
#[cycle(counting)]
fn form_steps(
    spaces: &Spaces,
    arrays: &[ArrayDecl],
    cuttings: &[Cutting],
    calls: &[u64],
    form: &Form,
) -> u64
    requires { AreCuttings spaces.now.spaces cuttings.now }
    ensures { result ≡ spec.form_cost (over spaces.now.spaces arrays.now) (among calls.now) (plain_form form.now) }
{
    match form {
        Form::Do { index, body } => {
            let (_, count) = spaces.range(*index);
            let steps = body_steps(spaces, arrays, cuttings, calls, body.as_slice());
            turns(1, count as u64, steps)
        }
        Form::DoIn { sub, index, body } => {
            let count = pieces_at(spaces, cuttings, *sub, *index);
            let steps = body_steps(spaces, arrays, cuttings, calls, body.as_slice());
            turns(1, count as u64, steps)
        }
        Form::Pardo { indices, body, .. } => {
            let steps = body_steps(spaces, arrays, cuttings, calls, body.as_slice());
            box_turns(spaces, indices.as_slice(), steps)
        }
        Form::If {
            then_body,
            else_body,
            ..
        } => {
            let more = match else_body {
                Some(other) => body_steps(spaces, arrays, cuttings, calls, other.as_slice()),
                None => 0,
            };
            let steps = body_steps(spaces, arrays, cuttings, calls, then_body.as_slice());
            plus(2, steps + more)
        }
        Form::Call { proc } => plus(2, steps_of(calls, *proc)),
        Form::Assign { right, .. } => 1 + 3 * shared_blocks(arrays, right),
        Form::Prepare { .. } => 4,
        Form::Get { .. }
        | Form::Request { .. }
        | Form::Put { .. }
        | Form::Create { .. }
        | Form::Delete { .. }
        | Form::SipBarrier
        | Form::ServerBarrier
        | Form::Collective { .. } => 3,
        Form::Allocate { .. }
        | Form::Deallocate { .. }
        | Form::Print { .. }
        | Form::PrintScalar { .. }
        | Form::Integrals { .. } => 1,
    }
}

// The steps of a pardo whose body has these.
#[tactic(auto, using(crate::proofs::ArithmeticLemmas::box_kept))]
fn box_turns(spaces: &Spaces, indices: &[u16], body: u64) -> u64
    requires { body ≤ 2 ^ 62 + 1 }
    ensures { result ≡ capped (2 + volume (box_of spaces.now.spaces indices.now) * (1 + body)) }
{
    turns(2, spaces.box_len(indices), body)
}

// The steps of a procedure.
fn steps_of(calls: &[u64], procedure: u16) -> u64
    ensures { result ≡ slice_index_or calls.now procedure 0 }
{
    calls.get(procedure as usize).copied().unwrap_or(0)
}
