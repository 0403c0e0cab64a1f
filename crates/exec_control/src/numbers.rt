//! The numbers of the indices, and those that callers get back.

ghost use Rattle.std.specs.Prelude.{◌≡◌, ◌<◌, [], ◌∷◌, ◌++◌, length, map, replicate, slice_index_or, slice_set, All, IfOk};
ghost use Rattle.exec_control.specs.Moves.{all_set};

use std::alloc::{AllocError, Global};
use std::marker::Model;

/// The number of each index, 0 where it isn't bound, and the numbers that callers get back. No call takes memory.
#[derive(Drop)]
pub struct Numbers {
    // a row for each caller, then that of the last call, and rows that are free
    rows: Vec<Vec<u32>>,
    depth: usize,
}

impl Model for Numbers {
    ghost use Rattle.std.specs.Prelude.{map};
    ghost use Rattle.exec_control.specs.Bindings.{AreRows, Bindings, bindings_at};

    ghost Value = { Bindings };

    ghost view = { λ n. bindings_at (map (λ row. row.items) n.rows.items) n.depth };

    ghost invariant = { λ n. AreRows (map (λ row. row.items) n.rows.items) n.depth };
}

impl Numbers {
    /// No index is bound, and no call in progress.
    pub fn open(alloc: Global, indices: usize) -> Result<Numbers, AllocError>
        ensures { IfOk result (λ n. n ≡ record { values = replicate indices 0; saved = [] }) }
    {
        let rows = empty_rows(alloc, indices)?;
        Ok(Numbers { rows, depth: 0 })
    }

    /// How many calls are in progress.
    pub fn depth(&self) -> usize
        ensures { result ≡ length self.now.saved }
    {
        self.depth
    }

    /// The number of each index.
    pub fn values(&self) -> &[u32]
        ensures { result.now ≡ self.now.values }
    {
        self.rows[self.depth].as_slice()
    }

    /// Binds an index to a number; 0 binds it no longer.
    pub fn bind(&mut self, index: u16, number: u32)
        requires { index < length self.old.values }
        ensures { self.new ≡ record self.old { values = slice_set self.old.values index number } }
    {
        self.rows[self.depth][index as usize] = number;
    }

    /// Binds indices to the members of a tuple, one after the other.
    pub fn bind_all(&mut self, indices: &[u16], tuple: &[u32])
        requires { All (λ i. i < length self.old.values) indices.now }
        ensures { self.new ≡ record { values = all_set indices.now tuple.now self.old.values; saved = self.old.saved } }
    {
        if let [index, indices @ ..] = indices {
            if let [number, tuple @ ..] = tuple {
                self.bind(*index, *number);
                self.bind_all(indices, tuple);
            }
        }
    }

    /// Binds these indices no longer.
    pub fn unbind_all(&mut self, indices: &[u16])
        requires { All (λ i. i < length self.old.values) indices.now }
        ensures { self.new ≡ record { values = all_set indices.now (map (λ i. 0) indices.now) self.old.values; saved = self.old.saved } }
    {
        if let [index, indices @ ..] = indices {
            self.bind(*index, 0);
            self.unbind_all(indices);
        }
    }

    /// A call begins, with no index bound.
    pub fn call(&mut self)
        requires { length self.old.saved < 16 }
        ensures { self.new ≡ record { values = replicate (length self.old.values) 0; saved = self.old.saved ++ self.old.values ∷ [] } }
    {
        self.depth += 1;
        self.rows[self.depth].fill(0);
    }

    /// The last call ends, and the caller's indices have their numbers again.
    pub fn back(&mut self)
        requires { 0 < length self.old.saved }
        ensures back { self.old.saved ≡ self.new.saved ++ self.new.values ∷ [] }
        ensures long { length self.new.values ≡ length self.old.values }
    {
        self.depth -= 1;
    }
}

// Rows for 16 calls and for none, of so many zeros.
fn empty_rows(alloc: Global, indices: usize) -> Result<Vec<Vec<u32>>, AllocError>
    ensures { IfOk result (λ rows. map (λ row. row.items) rows.items ≡ replicate 17 (replicate indices 0)) }
{
    let mut rows = Vec::with_capacity(alloc, 17)?;
    for _ in 0..17usize {
        rows.push(vec![in alloc; 0; indices]?)?;
    }
    Ok(rows)
}
