//! Local arrays that are named on both sides.

ghost use Rattle.std.specs.Prelude.{◌≡◌, None, Some, map, replicate, slice_index_or, slice_set, OnOk, IfOk};
ghost use Rattle.sial_syntax.specs.Parts.{arrays_named};
ghost use Rattle.scalar_discipline.specs.Deeds.{named_outside, named_within};
ghost use Rattle.scalar_discipline.specs.Discipline.{seen};
ghost use Rattle.scalar_discipline.specs.Flat.{sided_of};
ghost use Rattle.scalar_discipline.specs.Mixing as spec;
ghost use Rattle.scalar_discipline.specs.Rounds.{lesser};

use crate::fault::{RuleFault, sooner};
use crate::parts::arrays_named;
use crate::placed::Placed;
use crate::reaching::lesser;
use sial_syntax::{ArrayDecl, ArrayKind};
use std::alloc::{AllocError, Global};

/// The least line on which each of so many arrays is named within pardos.
pub fn lines_within(
    alloc: Global,
    count: usize,
    all: &[Placed],
) -> Result<Vec<Option<u32>>, AllocError>
    ensures { IfOk result (λ lines. lines.items ≡ spec.lines_of named_within (map sided_of all.now) (replicate count None)) }
{
    let mut lines = vec![in alloc; None; count]?;
    for stmt in all {
        if stmt.sides.inner {
            note(alloc, stmt, &mut lines)?;
        }
    }
    Ok(lines)
}

/// The least line on which each of so many arrays is named outside.
pub fn lines_outside(
    alloc: Global,
    count: usize,
    all: &[Placed],
) -> Result<Vec<Option<u32>>, AllocError>
    ensures { IfOk result (λ lines. lines.items ≡ spec.lines_of named_outside (map sided_of all.now) (replicate count None)) }
{
    let mut lines = vec![in alloc; None; count]?;
    for stmt in all {
        if stmt.sides.outer {
            note(alloc, stmt, &mut lines)?;
        }
    }
    Ok(lines)
}

// Notes the line of a statement at the arrays that it names.
fn note(alloc: Global, stmt: &Placed, lines: &mut Vec<Option<u32>>) -> Result<(), AllocError>
    ensures { OnOk result (lines.new.items ≡ spec.noted (arrays_named (sided_of stmt.now).form) stmt.now.line lines.old.items) }
{
    let mut named = Vec::new(alloc);
    arrays_named(stmt.form, &mut named)?;
    note_all(named.as_slice(), stmt.line, lines);
    Ok(())
}

// Notes a line at some arrays.
fn note_all(named: &[u16], line: u32, lines: &mut Vec<Option<u32>>)
    ensures { lines.new.items ≡ spec.noted named.now line lines.old.items }
{
    for array in named {
        note_one(*array as usize, line, lines);
    }
}

// Notes a line at an array.
fn note_one(array: usize, line: u32, lines: &mut Vec<Option<u32>>)
    ensures { lines.new.items ≡ slice_set lines.old.items array (lesser (slice_index_or lines.old.items array None) (Some line)) }
{
    if array < lines.len() {
        lines[array] = lesser(lines[array], Some(line));
    }
}

/// The earlier of a fault and the first one of arrays that are named on both sides.
pub fn first_mixed(
    outer: &[Option<u32>],
    inner: &[Option<u32>],
    arrays: &[ArrayDecl],
    first: Option<RuleFault>,
) -> Option<RuleFault>
    ensures { seen result ≡ spec.first_mixed outer.now inner.now 0 arrays.now (seen first) }
{
    let mut first = first;
    for (place, array) in arrays.iter().enumerate() {
        let mixed = array_mixed(array.kind, line_at(outer, place), line_at(inner, place));
        first = sooner(first, mixed);
    }
    first
}

// The line of an array.
fn line_at(lines: &[Option<u32>], place: usize) -> Option<u32>
    ensures { result ≡ slice_index_or lines.now place None }
{
    match lines.get(place) {
        Some(line) => *line,
        None => None,
    }
}

// The fault of an array of a kind that is named on these lines.
fn array_mixed(kind: ArrayKind, outer: Option<u32>, inner: Option<u32>) -> Option<RuleFault>
    ensures { seen result ≡ spec.array_mixed kind outer inner }
{
    match (kind, outer, inner) {
        (ArrayKind::Local, Some(outer), Some(inner)) => Some(RuleFault::MixedLocal {
            line: outer.max(inner),
        }),
        _ => None,
    }
}
