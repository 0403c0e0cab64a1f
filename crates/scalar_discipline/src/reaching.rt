//! Which procedures reach another by calls, and the first call that leads back.

ghost use Rattle.std.specs.Prelude.{◌≡◌, IfOk, IsTrue, false, length, slice_index_or};
ghost use Rattle.std.specs.List.{enumerate_from};
ghost use Rattle.sial_syntax.specs.SideRules.{least};
ghost use Rattle.scalar_discipline.specs.Calls.{lists};
ghost use Rattle.scalar_discipline.specs.Distinct.{LeadAlike};
ghost use Rattle.scalar_discipline.specs.Rounds as spec;

use crate::call::Call;
use crate::distinct::all_distinct;
use std::alloc::{AllocError, Global};

/// The least line of a call within a procedure that leads back to it.
#[tactic(auto, using(crate::proofs::LineLemmas::lesser_three))]
pub fn first_back(alloc: Global, calls: &[Vec<Call>]) -> Result<Option<u32>, AllocError>
    ensures { IfOk result (λ first. first ≡ spec.first_back (lists calls.now) (enumerate_from 0 (lists calls.now))) }
{
    // Who reaches whom is found over few calls, which a long body may repeat many times.
    let few = all_distinct(alloc, calls)?;
    let mut first = None;
    for (procedure, own) in calls.iter().enumerate() {
        let reach = reached(alloc, calls, few.as_slice(), procedure)?;
        first = lesser(first, least_back(reach.as_slice(), own.as_slice()));
    }
    Ok(first)
}

// Which procedures reach another, found over other calls that lead alike.
fn reached(
    alloc: Global,
    calls: &[Vec<Call>],
    few: &[Vec<Call>],
    to: usize,
) -> Result<Vec<bool>, AllocError>
    requires { LeadAlike (lists few.now) (lists calls.now) }
    ensures { IfOk result (λ reach. reach.items ≡ spec.reach_after (lists calls.now) to (length calls.now)) }
{
    reaching(alloc, few, to)
}

// Which procedures reach another: rounds of one call more each, until one finds no more.
fn reaching(alloc: Global, calls: &[Vec<Call>], to: usize) -> Result<Vec<bool>, AllocError>
    ensures { IfOk result (λ reach. reach.items ≡ spec.reach_after (lists calls.now) to (length calls.now)) }
{
    let mut reach = only(alloc, calls, to)?;
    for turn in 0..calls.len() {
        let further = next(alloc, calls, to, reach.as_slice())?;
        if same(further.as_slice(), reach.as_slice()) {
            return Ok(reach);
        }
        reach = further;
    }
    Ok(reach)
}

// Whether two lists are the same.
fn same(reach: &[bool], other: &[bool]) -> bool
    ensures { IsTrue result → reach.now ≡ other.now }
{
    reach == other
}

// Which procedures are another.
fn only(alloc: Global, calls: &[Vec<Call>], to: usize) -> Result<Vec<bool>, AllocError>
    ensures { IfOk result (λ reach. reach.items ≡ spec.reach_after (lists calls.now) to 0) }
{
    let mut reach = Vec::with_capacity(alloc, calls.len())?;
    for (from, _) in calls.iter().enumerate() {
        reach.push(from == to)?;
    }
    Ok(reach)
}

// Which procedures reach another with one call more.
fn next(
    alloc: Global,
    calls: &[Vec<Call>],
    to: usize,
    reach: &[bool],
) -> Result<Vec<bool>, AllocError>
    ensures { IfOk result (λ next. next.items ≡ spec.reach_next (lists calls.now) to reach.now) }
{
    let mut next = Vec::with_capacity(alloc, calls.len())?;
    for (from, own) in calls.iter().enumerate() {
        next.push(from == to || leads_on(reach, own.as_slice()))?;
    }
    Ok(next)
}

// Whether some calls lead to a procedure that reaches.
fn leads_on(reach: &[bool], calls: &[Call]) -> bool
    ensures { result ≡ spec.leads_on reach.now calls.now }
{
    calls.iter().any(|call| reaches(reach, call.procedure))
}

// Whether a procedure reaches.
fn reaches(reach: &[bool], procedure: u16) -> bool
    ensures { result ≡ slice_index_or reach.now procedure false }
{
    reach.get(procedure as usize).copied().unwrap_or(false)
}

// The least line of the calls to procedures that reach.
#[tactic(auto, using(crate::proofs::LineLemmas::lesser_three))]
fn least_back(reach: &[bool], calls: &[Call]) -> Option<u32>
    ensures { result ≡ least (spec.lines_back reach.now calls.now) }
{
    let mut first = None;
    for call in calls {
        if reaches(reach, call.procedure) {
            first = lesser(first, Some(call.line));
        }
    }
    first
}

/// The lesser of two lines, where there are any.
pub fn lesser(line: Option<u32>, other: Option<u32>) -> Option<u32>
    ensures { result ≡ spec.lesser line other }
{
    match (line, other) {
        (None, other) => other,
        (Some(line), None) => Some(line),
        (Some(line), Some(other)) => Some(line.min(other)),
    }
}
