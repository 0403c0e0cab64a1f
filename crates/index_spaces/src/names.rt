//! Names, and what they mean.

ghost use Rattle.std.specs.Prelude.{◌≡◌, ◌≤◌, ◌<◌, ◌^◌, length, OnSome, IfSome};
ghost use Rattle.sial_syntax.specs.Agreeing.{same_list};
ghost use Rattle.index_spaces.specs.Given.{names_of, place_from};

use sial_syntax::{ArrayDecl, Text};

/// Whether two names are the same.
#[tactic(auto, using(crate::proofs::NameLemmas::same_by_pairs))]
pub fn same_name(name: &[u8], other: &[u8]) -> bool
    ensures { result ≡ same_list name.now other.now }
{
    name == other
}

/// The place of the first scalar of a name.
pub fn scalar_place(scalars: &[Text], name: &[u8]) -> Option<usize>
    ensures { result ≡ place_from 0 scalars.now name.now }
{
    for (place, scalar) in scalars.iter().enumerate() {
        if same_name(scalar.as_slice(), name) {
            return Some(place);
        }
    }
    None
}

/// The place of the first array of a name.
pub fn array_place(arrays: &[ArrayDecl], name: &[u8]) -> Option<usize>
    ensures { result ≡ place_from 0 (names_of arrays.now) name.now }
{
    for (place, array) in arrays.iter().enumerate() {
        if same_name(array.name.as_slice(), name) {
            return Some(place);
        }
    }
    None
}
