//! The sides of procedures, handed on by their calls round after round until nothing changes.

ghost use Rattle.std.specs.Prelude.{◌≡◌, IfOk, IsTrue, length, map};
ghost use Rattle.scalar_discipline.specs.Calls.{lists};
ghost use Rattle.scalar_discipline.specs.Flat.{outside, sides_of};
ghost use Rattle.scalar_discipline.specs.Handing as spec;

use crate::call::Call;
use crate::standing::{Standing, sides_among};
use std::alloc::{AllocError, Global};

/// The sides of procedures, after as many rounds as there are procedures.
pub fn procedure_sides(
    alloc: Global,
    body: &[Call],
    calls: &[Vec<Call>],
) -> Result<Vec<Standing>, AllocError>
    ensures { IfOk result (λ sides. map sides_of sides.items ≡ spec.sides_after body.now (lists calls.now) (length calls.now)) }
{
    let mut sides = none(alloc, calls)?;
    for turn in 0..calls.len() {
        let next = next_sides(alloc, body, calls, sides.as_slice())?;
        if same(next.as_slice(), sides.as_slice()) {
            return Ok(sides);
        }
        sides = next;
    }
    Ok(sides)
}

// No sides for any procedure.
fn none(alloc: Global, calls: &[Vec<Call>]) -> Result<Vec<Standing>, AllocError>
    ensures { IfOk result (λ sides. map sides_of sides.items ≡ spec.nowhere (lists calls.now)) }
{
    let mut sides = Vec::with_capacity(alloc, calls.len())?;
    for _ in calls {
        sides.push(Standing {
            outer: false,
            inner: false,
        })?;
    }
    Ok(sides)
}

// The sides that a round gives.
fn next_sides(
    alloc: Global,
    body: &[Call],
    calls: &[Vec<Call>],
    sides: &[Standing],
) -> Result<Vec<Standing>, AllocError>
    ensures { IfOk result (λ next. map sides_of next.items ≡ spec.next_sides body.now (lists calls.now) (map sides_of sides.now)) }
{
    let mut given = none(alloc, calls)?;
    let own = Standing {
        outer: true,
        inner: false,
    };
    hand_on(own, body, &mut given);
    hand_all(sides, calls, &mut given);
    Ok(given)
}

// Hands on the sides of all procedures.
fn hand_all(sides: &[Standing], calls: &[Vec<Call>], given: &mut Vec<Standing>)
    ensures { map sides_of given.new.items ≡ spec.handed_on (map sides_of sides.now) (lists calls.now) (map sides_of given.old.items) }
{
    for (place, own) in calls.iter().enumerate() {
        hand_on(sides_among(sides, place), own.as_slice(), given);
    }
}

// Hands on sides by some calls.
fn hand_on(own: Standing, calls: &[Call], given: &mut Vec<Standing>)
    ensures { map sides_of given.new.items ≡ spec.hand_on (spec.handed (sides_of own) calls.now) (map sides_of given.old.items) }
{
    for call in calls {
        give(call.procedure as usize, own.at(call.within), given);
    }
}

// Gives a procedure sides beside those that it has.
fn give(procedure: usize, sides: Standing, given: &mut Vec<Standing>)
    ensures { map sides_of given.new.items ≡ spec.given_more procedure (sides_of sides) (map sides_of given.old.items) }
{
    if procedure < given.len() {
        given[procedure] = given[procedure].or(sides);
    }
}

// Whether two lists of sides are the same.
fn same(sides: &[Standing], other: &[Standing]) -> bool
    ensures { IsTrue result → map sides_of sides.now ≡ map sides_of other.now }
{
    match sides {
        [] => other.is_empty(),
        [own, sides @ ..] => match other {
            [] => false,
            [second, other @ ..] => {
                own.outer == second.outer && own.inner == second.inner && same(sides, other)
            }
        },
    }
}
