//! So many positions in a row, by their offsets.

ghost use Rattle.std.specs.Prelude.{◌≡◌, ◌+◌, ◌-◌, ◌<◌, ◌≤◌, ℕ, length, min, replicate, slice_index, slice_set};

use crate::walk::Offsets;

/// The offsets of up to `N` positions in the two sources and in the target. Those of the first fill
/// the rest of the arrays, so that all `N` can be read.
#[derive(Clone, Copy)]
pub struct Run<const N: usize> {
    /// How many positions there are.
    pub len: usize,
    /// Their offsets in the first source.
    pub a: [usize; N],
    /// Their offsets in the second source.
    pub b: [usize; N],
    /// Their offsets in the target.
    pub to: [usize; N],
}

impl<const N: usize> Run<N> {
    /// One position, whose offsets fill the arrays.
    pub fn of(at: Offsets) -> Run<N>
        ensures len { result.len ≡ 1 }
        ensures a { result.a ≡ replicate N at.a }
        ensures b { result.b ≡ replicate N at.b }
        ensures to { result.to ≡ replicate N at.to }
    {
        Run {
            len: 1,
            a: [at.a; N],
            b: [at.b; N],
            to: [at.to; N],
        }
    }

    /// Adds a position.
    pub fn push(&mut self, at: Offsets)
        requires { self.old.len < N }
        ensures len { self.new.len ≡ self.old.len + 1 }
        ensures a { self.new.a ≡ slice_set self.old.a self.old.len at.a }
        ensures b { self.new.b ≡ slice_set self.old.b self.old.len at.b }
        ensures to { self.new.to ≡ slice_set self.old.to self.old.len at.to }
    {
        self.a[self.len] = at.a;
        self.b[self.len] = at.b;
        self.to[self.len] = at.to;
        self.len += 1;
    }

    /// Four positions from one on, as many of them as there are.
    pub fn four(&self, at: usize) -> Run<4>
        requires within { at + 4 ≤ N }
        requires some { at < self.now.len }
        ensures len { result.len ≡ min 4 (self.now.len - at) }
        ensures a { (i : ℕ) → i < 4 → slice_index result.a i ≡ slice_index self.now.a (at + i) }
        ensures b { (i : ℕ) → i < 4 → slice_index result.b i ≡ slice_index self.now.b (at + i) }
        ensures to { (i : ℕ) → i < 4 → slice_index result.to i ≡ slice_index self.now.to (at + i) }
    {
        Run {
            len: (self.len - at).min(4),
            a: four_of(&self.a, at),
            b: four_of(&self.b, at),
            to: four_of(&self.to, at),
        }
    }
}

fn four_of(offsets: &[usize], at: usize) -> [usize; 4]
    requires { at + 4 ≤ length offsets.now }
    ensures { (i : ℕ) → i < 4 → slice_index result i ≡ slice_index offsets.now (at + i) }
{
    [
        offsets[at],
        offsets[at + 1],
        offsets[at + 2],
        offsets[at + 3],
    ]
}
