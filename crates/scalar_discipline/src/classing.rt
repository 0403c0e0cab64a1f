//! The classes of scalars and the sides of local arrays.

ghost use Rattle.std.specs.Prelude.{◌≡◌, ◌≤◌, None, IfErr, IfOk, OnOk, length, map, slice_index_or, false};
ghost use Rattle.std.specs.List.{enumerate_from};
ghost use Rattle.sial_syntax.specs.Boxes.{numbers_from};
ghost use Rattle.sial_syntax.specs.Sides.{all_sided, array_sides, class_by, scalar_classes};
ghost use Rattle.sial_syntax.specs.Shapes.{first_fault};
ghost use Rattle.sial_syntax.specs.SideRules.{side_fault, side_faults};
ghost use Rattle.sial_syntax.specs.Sides as rules;
ghost use Rattle.sial_syntax.specs.Tree.{tree};
ghost use Rattle.scalar_discipline.specs.Discipline.{IsFirst, depths_of, seen};
ghost use Rattle.scalar_discipline.specs.Deeds as spec;
ghost use Rattle.scalar_discipline.specs.Flat.{sided_of};

use crate::call::{body_calls, calls};
use crate::deeds::{marks, mixed_within, named_outside, named_within, written_within};
use crate::depths::call_depths;
use crate::fault::RuleFault;
use crate::handing::procedure_sides;
use crate::judging::first_told;
use crate::mixing::{first_mixed, lines_outside, lines_within};
use crate::placed::{Placed, all_placed};
use sial_syntax::{ArrayDecl, ArrayKind, Classes, Program, ScalarClass, Side, Text};
use std::alloc::{AllocError, Global};

/// The class of each scalar and the side of each local array, by the sides on which the statements stand. The tree need not be proper.
pub fn classes(alloc: Global, program: &Program) -> Result<Classes, AllocError>
    ensures scalars { IfOk result (λ classes. classes.scalars.items ≡ scalar_classes (tree program.now)) }
    ensures locals { IfOk result (λ classes. classes.locals.items ≡ array_sides (tree program.now)) }
{
    let all = all_statements(alloc, program)?;
    let scalars = scalar_classes(alloc, program.scalars.as_slice(), all.as_slice())?;
    let locals = array_sides(alloc, program.arrays.as_slice(), all.as_slice())?;
    Ok(Classes { scalars, locals })
}

// All statements of a program, with the sides on which they stand.
fn all_statements<'a>(alloc: Global, program: &'a Program) -> Result<Vec<Placed<'a>>, AllocError>
    ensures { IfOk result (λ all. map sided_of all.items ≡ all_sided (tree program.now)) }
{
    let body = body_calls(alloc, program.body.as_slice())?;
    let calls = calls(alloc, program.procs.as_slice())?;
    let sides = procedure_sides(alloc, body.as_slice(), calls.as_slice())?;
    all_placed(alloc, program, sides.as_slice())
}

// The class of each scalar.
fn scalar_classes(
    alloc: Global,
    scalars: &[Text],
    all: &[Placed],
) -> Result<Vec<ScalarClass>, AllocError>
    ensures { IfOk result (λ classes. classes.items ≡ spec.classes_of (length scalars.now) (map sided_of all.now)) }
{
    let written = marks(alloc, scalars.len(), written_within(alloc, all)?.as_slice())?;
    let mixed = marks(alloc, scalars.len(), mixed_within(alloc, all)?.as_slice())?;
    classes_marked(alloc, scalars.len(), written.as_slice(), mixed.as_slice())
}

// The class of each of so many scalars by its marks.
fn classes_marked(
    alloc: Global,
    count: usize,
    written: &[bool],
    mixed: &[bool],
) -> Result<Vec<ScalarClass>, AllocError>
    ensures { IfOk result (λ classes. classes.items ≡ map (spec.class_marked written.now mixed.now) (numbers_from 0 count)) }
{
    let mut classes = Vec::with_capacity(alloc, count)?;
    for scalar in 0..count {
        classes.push(class_marked(written, mixed, scalar))?;
    }
    Ok(classes)
}

// The class of a scalar by its marks.
fn class_marked(written: &[bool], mixed: &[bool], scalar: usize) -> ScalarClass
    ensures { result ≡ spec.class_marked written.now mixed.now scalar }
{
    class_by(is_marked(written, scalar), !is_marked(mixed, scalar))
}

// The class of a scalar by whether it is written within, and only by adding.
fn class_by(written: bool, accumulated: bool) -> ScalarClass
    ensures { result ≡ class_by written accumulated }
{
    match (written, accumulated) {
        (false, _) => ScalarClass::Replicated,
        (true, true) => ScalarClass::Partial,
        (true, false) => ScalarClass::Private,
    }
}

// Whether a place is marked.
fn is_marked(marks: &[bool], place: usize) -> bool
    ensures { result ≡ slice_index_or marks.now place false }
{
    marks.get(place).copied().unwrap_or(false)
}

// The side of each array.
fn array_sides(alloc: Global, arrays: &[ArrayDecl], all: &[Placed]) -> Result<Vec<Side>, AllocError>
    ensures { IfOk result (λ sides. sides.items ≡ spec.sides_by arrays.now (map sided_of all.now)) }
{
    let within = marks(alloc, arrays.len(), named_within(alloc, all)?.as_slice())?;
    let outside = marks(alloc, arrays.len(), named_outside(alloc, all)?.as_slice())?;
    sides_marked(alloc, arrays, within.as_slice(), outside.as_slice())
}

// The side of each array by its marks.
fn sides_marked(
    alloc: Global,
    arrays: &[ArrayDecl],
    within: &[bool],
    outside: &[bool],
) -> Result<Vec<Side>, AllocError>
    ensures { IfOk result (λ sides. sides.items ≡ map (spec.array_marked within.now outside.now) (enumerate_from 0 arrays.now)) }
{
    let mut sides = Vec::with_capacity(alloc, arrays.len())?;
    for (place, array) in arrays.iter().enumerate() {
        let inner = is_marked(within, place);
        sides.push(side(array.kind, inner, is_marked(outside, place)))?;
    }
    Ok(sides)
}

// The side of an array of a kind by whether it is named within and outside.
fn side(kind: ArrayKind, inner: bool, outer: bool) -> Side
    ensures { result ≡ spec.side_marked kind inner outer }
{
    match (kind, inner, outer) {
        (ArrayKind::Local, true, _) => Side::Inner,
        (ArrayKind::Local, false, true) => Side::Outer,
        _ => Side::Unused,
    }
}

/// The classes of a program that keeps the side rules; any other is refused by its first fault: recursion, then by line, then by the rule's number.
pub fn classify(alloc: Global, program: &Program) -> Result<Classes, RuleFault>
    requires few { length (tree program.now).procedures ≤ 65535 }
    ensures scalars { IfOk result (λ classes. classes.scalars.items ≡ rules.scalar_classes (tree program.now)) }
    ensures locals { IfOk result (λ classes. classes.locals.items ≡ rules.array_sides (tree program.now)) }
    ensures granted { OnOk result (side_fault (tree program.now) ≡ None) }
    ensures fault { IfErr result (IsFirst (tree program.now)) }
{
    let depths = match call_depths(alloc, program) {
        Ok(depths) => depths,
        Err(fault) => return Err(fault),
    };
    let classes = classes(alloc, program)?;
    match first_fault(
        alloc,
        program,
        classes.scalars.as_slice(),
        depths.as_slice(),
    )? {
        Some(fault) => Err(fault),
        None => Ok(classes),
    }
}

// The first fault of sides but recursion.
fn first_fault(
    alloc: Global,
    program: &Program,
    classes: &[ScalarClass],
    depths: &[u32],
) -> Result<Option<RuleFault>, AllocError>
    requires classes { classes.now ≡ rules.scalar_classes (tree program.now) }
    requires depths { depths.now ≡ depths_of (tree program.now) }
    ensures { IfOk result (λ found. seen found ≡ first_fault (side_faults (tree program.now))) }
{
    let all = all_statements(alloc, program)?;
    let arrays = program.arrays.as_slice();
    let first = first_told(program, classes, depths, all.as_slice(), None);
    let outer = lines_outside(alloc, arrays.len(), all.as_slice())?;
    let inner = lines_within(alloc, arrays.len(), all.as_slice())?;
    Ok(first_mixed(outer.as_slice(), inner.as_slice(), arrays, first))
}
