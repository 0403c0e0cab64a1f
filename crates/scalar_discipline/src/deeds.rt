//! What statements write and name on a side, number by number.

ghost use Rattle.std.specs.Prelude.{◌≡◌, flat_map, map, replicate, slice_set, false, true, IfOk};
ghost use Rattle.scalar_discipline.specs.Deeds as spec;
ghost use Rattle.scalar_discipline.specs.Flat.{sided_of};

use crate::parts::{arrays_named, is_accumulation, scalar_written};
use crate::placed::Placed;
use std::alloc::{AllocError, Global};

/// The scalars that are written within pardos.
pub fn written_within(alloc: Global, all: &[Placed]) -> Result<Vec<u16>, AllocError>
    ensures { IfOk result (λ numbers. numbers.items ≡ flat_map spec.written_within (map sided_of all.now)) }
{
    let mut numbers = Vec::new(alloc);
    for stmt in all {
        if stmt.sides.inner {
            if let Some(scalar) = scalar_written(stmt.form) {
                numbers.push(scalar)?;
            }
        }
    }
    Ok(numbers)
}

/// The scalars that are written within pardos other than by adding.
pub fn mixed_within(alloc: Global, all: &[Placed]) -> Result<Vec<u16>, AllocError>
    ensures { IfOk result (λ numbers. numbers.items ≡ flat_map spec.mixed_within (map sided_of all.now)) }
{
    let mut numbers = Vec::new(alloc);
    for stmt in all {
        if stmt.sides.inner && !is_accumulation(stmt.form) {
            if let Some(scalar) = scalar_written(stmt.form) {
                numbers.push(scalar)?;
            }
        }
    }
    Ok(numbers)
}

/// The arrays that are named within pardos.
pub fn named_within(alloc: Global, all: &[Placed]) -> Result<Vec<u16>, AllocError>
    ensures { IfOk result (λ numbers. numbers.items ≡ flat_map spec.named_within (map sided_of all.now)) }
{
    let mut numbers = Vec::new(alloc);
    for stmt in all {
        if stmt.sides.inner {
            arrays_named(stmt.form, &mut numbers)?;
        }
    }
    Ok(numbers)
}

/// The arrays that are named outside.
pub fn named_outside(alloc: Global, all: &[Placed]) -> Result<Vec<u16>, AllocError>
    ensures { IfOk result (λ numbers. numbers.items ≡ flat_map spec.named_outside (map sided_of all.now)) }
{
    let mut numbers = Vec::new(alloc);
    for stmt in all {
        if stmt.sides.outer {
            arrays_named(stmt.form, &mut numbers)?;
        }
    }
    Ok(numbers)
}

/// So many places, of which those with these numbers are marked.
pub fn marks(alloc: Global, count: usize, numbers: &[u16]) -> Result<Vec<bool>, AllocError>
    ensures { IfOk result (λ marks. marks.items ≡ spec.marked numbers.now (replicate count false)) }
{
    let mut marks = vec![in alloc; false; count]?;
    for number in numbers {
        mark(*number as usize, &mut marks);
    }
    Ok(marks)
}

// Marks a place.
fn mark(place: usize, marks: &mut Vec<bool>)
    ensures { marks.new.items ≡ slice_set marks.old.items place true }
{
    if place < marks.len() {
        marks[place] = true;
    }
}
