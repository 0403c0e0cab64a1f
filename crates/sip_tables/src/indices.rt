//! The indices of a pardo.

ghost use Rattle.std.specs.Prelude.{◌≡◌, ℕ, List, IfOk};

use std::alloc::{AllocError, Global};
use std::marker::Model;

/// Index numbers, which contracts see as their list.
#[derive(Drop)]
pub struct Indices {
    numbers: Vec<u16>,
}

impl Model for Indices {
    ghost Value = { List ℕ };

    ghost view = { λ i. i.numbers.items };
}

impl Indices {
    /// These numbers, with no memory taken.
    pub fn from_vec(numbers: Vec<u16>) -> Indices
        ensures { result ≡ numbers.items }
    {
        Indices { numbers }
    }

    /// A copy of these numbers.
    pub fn from_slice(alloc: Global, numbers: &[u16]) -> Result<Indices, AllocError>
        ensures { IfOk result (λ i. i ≡ numbers.now) }
    {
        Ok(Indices {
            numbers: Vec::from_slice(alloc, numbers)?,
        })
    }

    /// The numbers.
    pub fn as_slice(&self) -> &[u16]
        ensures { result.now ≡ self.now }
    {
        self.numbers.as_slice()
    }
}
