//! Conditions: whether their indices are bound, and whether they name scalars.

ghost use Rattle.std.specs.Prelude.{◌≡◌, ◌++◌, flat_map, length, nat_lt};
ghost use Rattle.std.specs.List.{list_all, list_any};
ghost use Rattle.sial_syntax.specs.declared.condition.Cond.{Cond};
ghost use Rattle.sial_syntax.specs.Agreeing.{all_in};
ghost use Rattle.sial_syntax.specs.Parts.{condition_indices, condition_scalars, value_index};

use crate::lists::contains;
use sial_syntax::{Cond, Value};

/// Whether the indices of some conditions are a pardo's own or bound around it.
#[tactic(auto, using(crate::proofs::ConditionLemmas::all_bound))]
pub fn are_bound(own: &[u16], bound: &[u16], wheres: &[Cond]) -> bool
    ensures { result ≡ all_in (flat_map condition_indices wheres.now) (own.now ++ bound.now) }
{
    each_is_bound(own, bound, wheres)
}

// Whether those of each condition are.
fn each_is_bound(own: &[u16], bound: &[u16], wheres: &[Cond]) -> bool
    ensures { result ≡ list_all (λ (cond : Cond). all_in (condition_indices cond) (own.now ++ bound.now)) wheres.now }
{
    wheres.iter().all(|cond| is_bound(own, bound, *cond))
}

/// Whether the indices of a condition are bound.
#[tactic(auto, using(crate::proofs::ListLemmas::all_in_append))]
pub fn is_bound(own: &[u16], bound: &[u16], cond: Cond) -> bool
    ensures { result ≡ all_in (condition_indices cond) (own.now ++ bound.now) }
{
    is_bound_value(own, bound, cond.left) && is_bound_value(own, bound, cond.right)
}

// Whether the index that a value may be is bound.
#[tactic(auto, using(crate::proofs::ConditionLemmas::one_bound))]
fn is_bound_value(own: &[u16], bound: &[u16], value: Value) -> bool
    ensures { result ≡ all_in (value_index value) (own.now ++ bound.now) }
{
    match value {
        Value::Index(index) => contains(own, index) || contains(bound, index),
        Value::Number(_) | Value::Scalar(_) => true,
    }
}

/// Whether conditions name a scalar.
#[tactic(auto, using(crate::proofs::ConditionLemmas::any_scalar))]
pub fn name_scalars(wheres: &[Cond]) -> bool
    ensures { result ≡ nat_lt 0 (length (flat_map condition_scalars wheres.now)) }
{
    one_names_scalar(wheres)
}

// Whether one of some conditions does.
fn one_names_scalar(wheres: &[Cond]) -> bool
    ensures { result ≡ list_any (λ (cond : Cond). nat_lt 0 (length (condition_scalars cond))) wheres.now }
{
    wheres.iter().any(|cond| names_scalar(*cond))
}

// Whether a condition names a scalar.
fn names_scalar(cond: Cond) -> bool
    ensures { result ≡ nat_lt 0 (length (condition_scalars cond)) }
{
    matches!(cond.left, Value::Scalar(_)) || matches!(cond.right, Value::Scalar(_))
}
