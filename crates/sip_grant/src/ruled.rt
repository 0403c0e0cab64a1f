//! The program of a file, if it keeps the rules.

ghost use Rattle.std.specs.Prelude.{◌≡◌, ◌≤◌, None, length, IfOk, IfErr, OnOk};
ghost use Rattle.sial_syntax.specs.Shapes.{shape_fault};
ghost use Rattle.sial_syntax.specs.Sides as rules;
ghost use Rattle.sial_syntax.specs.Tree.{tree};
ghost use Rattle.sip_grant.specs.Refusals.{BlamesProgram};
ghost use Rattle.sip_grant.specs.Ruled.{IsRuled, BlamesTree};
ghost use Rattle.sip_setting.specs.Grants.{KeepsRules};

use crate::reading::read_source;
use crate::refusal::Refusal;
use scalar_discipline::{RuleFault, classify};
use shape_check::{ShapeFault, shapes};
use sial_syntax::{Classes, Program};
use std::alloc::Global;

/// A program that keeps the rules, with the classes of its scalars and the sides of its local arrays.
#[derive(Drop)]
pub struct Ruled {
    pub program: Program,
    pub classes: Classes,
}

/// The program of a file, if it keeps the rules.
#[tactic(auto, using(crate::proofs::RuledLemmas::tree_blames))]
pub fn read_ruled(alloc: Global, file: &[u8]) -> Result<Ruled, Refusal>
    ensures found { IfOk result (IsRuled file.now) }
    ensures blames { IfErr result (BlamesProgram file.now) }
{
    let program = match read_source(alloc, file) {
        Ok(program) => program,
        Err(refusal) => return Err(refusal),
    };
    match classes_of(alloc, &program) {
        Ok(classes) => Ok(Ruled { program, classes }),
        Err(refusal) => Err(refusal),
    }
}

// The classes of a program, if it keeps the rules.
#[tactic(auto, using(crate::proofs::RuledLemmas::shape_is))]
fn classes_of(alloc: Global, program: &Program) -> Result<Classes, Refusal>
    requires few { length (tree program.now).procedures ≤ 65535 }
    ensures scalars { IfOk result (λ classes. classes.scalars.items ≡ rules.scalar_classes (tree program.now)) }
    ensures locals { IfOk result (λ classes. classes.locals.items ≡ rules.array_sides (tree program.now)) }
    ensures rules { OnOk result (KeepsRules (tree program.now)) }
    ensures blames { IfErr result (BlamesTree (tree program.now)) }
{
    match shapes(alloc, program) {
        Ok(()) => sides_of(alloc, program),
        Err(ShapeFault::OutOfMemory) => Err(Refusal::OutOfMemory),
        Err(fault) => Err(Refusal::Shape(fault)),
    }
}

// The classes of a program that keeps the shape rules, if it keeps the side rules too.
#[tactic(auto, using(crate::proofs::RuledLemmas::side_is))]
fn sides_of(alloc: Global, program: &Program) -> Result<Classes, Refusal>
    requires few { length (tree program.now).procedures ≤ 65535 }
    requires shapes { shape_fault (tree program.now) ≡ None }
    ensures scalars { IfOk result (λ classes. classes.scalars.items ≡ rules.scalar_classes (tree program.now)) }
    ensures locals { IfOk result (λ classes. classes.locals.items ≡ rules.array_sides (tree program.now)) }
    ensures rules { OnOk result (KeepsRules (tree program.now)) }
    ensures blames { IfErr result (BlamesTree (tree program.now)) }
{
    match classify(alloc, program) {
        Ok(classes) => Ok(classes),
        Err(RuleFault::OutOfMemory) => Err(Refusal::OutOfMemory),
        Err(fault) => Err(Refusal::Sides(fault)),
    }
}
