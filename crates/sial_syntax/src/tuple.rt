//! Short lists of index numbers.

ghost use Rattle.std.specs.Prelude.{◌≡◌, ◌==◌, ◌≤◌, ℕ, List, IfOk, IsOk, length};
ghost use Rattle.std.proofs.Common.{rules};
ghost use Rattle.std.specs.Cmp.Rules.{comparing};
ghost use Rattle.std.specs.Cmp.Lexicographic.{pointwise};

use smallvec::SmallVec;
use std::alloc::{AllocError, Global};
use std::marker::Model;

/// At most six index numbers need no memory of their own; contracts see their list.
#[derive(Clone, Drop)]
pub struct Tuple {
    numbers: SmallVec<u16, 6>,
}

impl Model for Tuple {
    ghost Value = { List ℕ };

    ghost view = { λ t. t.numbers.items };
}

impl Tuple {
    /// The tuple of these numbers.
    pub fn from_slice(alloc: Global, numbers: &[u16]) -> Result<Tuple, AllocError>
        ensures value { IfOk result (λ t. t ≡ numbers.now) }
        ensures succeeds { length numbers.now ≤ 6 → IsOk result }
    {
        Ok(Tuple {
            numbers: SmallVec::from_slice(alloc, numbers)?,
        })
    }

    /// The numbers.
    pub fn as_slice(&self) -> &[u16]
        ensures { result.now ≡ self.now }
    {
        self.numbers.as_slice()
    }

    /// How many numbers it has.
    pub fn len(&self) -> usize
        ensures { result ≡ length self.now }
    {
        self.numbers.len()
    }
}

impl PartialEq for Tuple {
    ghost eq = { λ a b. pointwise ◌==◌ a b };

    ghost laws = { Prim.search (comparing, rules) };

    fn eq(&self, other: &Tuple) -> bool {
        self.numbers.as_slice() == other.numbers.as_slice()
    }
}

impl Eq for Tuple {
    ghost laws = { Prim.search (comparing, rules) };
}
