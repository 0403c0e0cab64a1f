//! Which assignments need the elements that their target had.

ghost use Rattle.std.specs.Prelude.{◌≡◌, ◌||◌};
ghost use Rattle.std.specs.List.{list_any};
ghost use Rattle.sip_setting.specs.Seen.{setting_of};
ghost use Rattle.sial_syntax.specs.Agreeing.{contains};
ghost use Rattle.sial_syntax.specs.Spaces.{Spaces};
ghost use Rattle.sial_meaning.specs.LocalStep as step;
ghost use Rattle.sial_meaning.specs.Right as spec;
ghost use Rattle.exec_names.specs.Cutting.{IsCutAs};
ghost use Rattle.exec_sides.specs.Seen.{side_of};

use exec_job::Job;
use exec_names::super_of;
use exec_sides::{Side, Term};
use sial_syntax::{IndexDecl, Op};

/// Whether an assignment needs the elements that a target with these indices had.
pub fn needs_old(job: &Job, op: Op, target: &[u16], side: &Side) -> bool
    ensures { result ≡ (step.needs_old op || spec.is_insertion (setting_of job.now).spaces target.now (side_of side.now)) }
{
    match op {
        Op::Set => is_insertion(job, target, side),
        Op::Add | Op::Subtract | Op::Scale => true,
    }
}

// Whether a right side names only a part of a target with these indices.
fn is_insertion(job: &Job, target: &[u16], side: &Side) -> bool
    ensures { result ≡ spec.is_insertion (setting_of job.now).spaces target.now (side_of side.now) }
{
    match side {
        Side::Alone(term) => match term {
            Term::Number(_) => false,
            Term::Block(block) => is_any_part(job.indices(), target, block.shape.at),
        },
        Side::Joined(..) => false,
    }
}

// Whether one of some indices stands for only a part of one of the target's.
fn is_any_part(indices: &[IndexDecl], target: &[u16], at: &[u16]) -> bool
    ensures { (spaces : Spaces) → IsCutAs spaces indices.now → result ≡ list_any (spec.is_part spaces target.now) at.now }
{
    match at {
        [] => false,
        [first, rest @ ..] => is_part(indices, target, *first)
            || is_any_part(indices, target, rest),
    }
}

// Whether an index stands for only a part of one of the target's.
fn is_part(indices: &[IndexDecl], target: &[u16], index: u16) -> bool
    ensures { (spaces : Spaces) → IsCutAs spaces indices.now → result ≡ spec.is_part spaces target.now index }
{
    if has(target, index) {
        return false;
    }
    match super_of(indices, index) {
        Some(whole) => has(target, whole),
        None => false,
    }
}

// Whether an index stands among some.
fn has(indices: &[u16], index: u16) -> bool
    ensures { result ≡ contains indices.now index }
{
    match indices {
        [] => false,
        [first, rest @ ..] => *first == index || has(rest, index),
    }
}
