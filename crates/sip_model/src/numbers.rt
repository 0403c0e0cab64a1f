//! Lists of numbers, as a placement and the counts have them.

ghost use Rattle.std.specs.Prelude.{◌≡◌, ℕ, List};

use std::marker::Model;

/// Numbers in order, which contracts see as their list.
#[derive(Drop)]
pub struct Numbers {
    items: Vec<u32>,
}

impl Model for Numbers {
    ghost Value = { List ℕ };

    ghost view = { λ n. n.items.items };
}

impl Numbers {
    /// The numbers of a list, with no memory taken.
    pub fn from_vec(items: Vec<u32>) -> Numbers
        ensures { result ≡ items.items }
    {
        Numbers { items }
    }

    /// The list, with no memory taken.
    pub fn into_vec(self) -> Vec<u32>
        ensures { result.items ≡ self }
    {
        self.items
    }

    /// The numbers.
    pub fn as_slice(&self) -> &[u32]
        ensures { result.now ≡ self.now }
    {
        self.items.as_slice()
    }
}
