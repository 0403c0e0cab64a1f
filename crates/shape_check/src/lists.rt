//! Lists of indices beside one another.

ghost use Rattle.std.specs.Prelude.{◌≡◌, ◌++◌, ◌||◌, filter, not};
ghost use Rattle.std.specs.List.{list_all};
ghost use Rattle.sial_syntax.specs.Agreeing as spec;

/// Whether an index stands in a list.
pub fn contains(indices: &[u16], index: u16) -> bool
    ensures { result ≡ spec.contains indices.now index }
{
    indices.contains(&index)
}

/// Whether each index of the first list stands in the second.
pub fn all_in(list: &[u16], other: &[u16]) -> bool
    ensures { result ≡ spec.all_in list.now other.now }
{
    list.iter().all(|index| contains(other, *index))
}

/// Whether two lists have the same indices, in any order.
pub fn same_set(list: &[u16], other: &[u16]) -> bool
    ensures { result ≡ spec.same_set list.now other.now }
{
    all_in(list, other) && all_in(other, list)
}

/// Whether two lists share an index.
pub fn share_any(list: &[u16], other: &[u16]) -> bool
    ensures { result ≡ spec.share_any list.now other.now }
{
    list.iter().any(|index| contains(other, *index))
}

/// Whether two lists are the same.
#[tactic(auto, using(crate::proofs::ListLemmas::same_by_pairs))]
pub fn same_list(list: &[u16], other: &[u16]) -> bool
    ensures { result ≡ spec.same_list list.now other.now }
{
    list == other
}

/// Whether an index stands twice.
pub fn has_twice(indices: &[u16]) -> bool
    ensures { result ≡ spec.has_twice indices.now }
{
    match indices {
        [] => false,
        [index, others @ ..] => contains(others, *index) || has_twice(others),
    }
}

// Whether an index stands in one of two lists, or in both.
#[tactic(auto, using(crate::proofs::ListLemmas::contains_append))]
fn in_either(index: u16, left: &[u16], right: &[u16]) -> bool
    ensures { result ≡ spec.contains (left.now ++ right.now) index }
{
    contains(left, index) || contains(right, index)
}

// Whether each index of a list stands in one of two others.
fn all_in_either(list: &[u16], left: &[u16], right: &[u16]) -> bool
    ensures { result ≡ spec.all_in list.now (left.now ++ right.now) }
{
    list.iter().all(|index| in_either(*index, left, right))
}

// Whether a list has the indices of both others.
#[tactic(auto, using(crate::proofs::ListLemmas::all_in_append))]
fn has_both(list: &[u16], left: &[u16], right: &[u16]) -> bool
    ensures { result ≡ spec.all_in (left.now ++ right.now) list.now }
{
    all_in(left, list) && all_in(right, list)
}

/// Whether a list has just the indices of two others together.
pub fn is_union(list: &[u16], left: &[u16], right: &[u16]) -> bool
    ensures { result ≡ spec.same_set list.now (left.now ++ right.now) }
{
    all_in_either(list, left, right) && has_both(list, left, right)
}

// Whether an index stands in exactly one of two lists.
#[tactic(auto, using(crate::proofs::ListLemmas::contains_in_one))]
fn stands_in_one(index: u16, left: &[u16], right: &[u16]) -> bool
    ensures { result ≡ spec.contains (spec.in_one left.now right.now) index }
{
    if contains(left, index) {
        !contains(right, index)
    } else {
        contains(right, index)
    }
}

// Whether each index of a list stands in exactly one of two others.
fn all_in_one(list: &[u16], left: &[u16], right: &[u16]) -> bool
    ensures { result ≡ spec.all_in list.now (spec.in_one left.now right.now) }
{
    list.iter().all(|index| stands_in_one(*index, left, right))
}

// Whether each index of a list stands in one of two others.
fn each_in_either(list: &[u16], left: &[u16], right: &[u16]) -> bool
    ensures { result ≡ list_all (λ index. spec.contains left.now index || spec.contains right.now index) list.now }
{
    list.iter()
        .all(|index| contains(left, *index) || contains(right, *index))
}

// Whether the indices of a list that another lacks stand in a third.
fn others_in(list: &[u16], without: &[u16], target: &[u16]) -> bool
    ensures { result ≡ spec.all_in (filter (λ index. not (spec.contains without.now index)) list.now) target.now }
{
    each_in_either(list, without, target)
}

// Whether a list has the indices that stand in exactly one of two others.
#[tactic(auto, using(crate::proofs::ListLemmas::all_in_append))]
fn has_one_sided(list: &[u16], left: &[u16], right: &[u16]) -> bool
    ensures { result ≡ spec.all_in (spec.in_one left.now right.now) list.now }
{
    others_in(left, right, list) && others_in(right, left, list)
}

/// Whether a list has just the indices that stand in exactly one of two others.
pub fn is_difference(list: &[u16], left: &[u16], right: &[u16]) -> bool
    ensures { result ≡ spec.same_set list.now (spec.in_one left.now right.now) }
{
    all_in_one(list, left, right) && has_one_sided(list, left, right)
}
