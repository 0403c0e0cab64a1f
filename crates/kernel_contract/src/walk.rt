//! Walks over all positions of a list of axes, the last axis fastest.

ghost use Rattle.std.specs.Prelude.{◌≡◌, ◌+◌, ◌*◌, ◌%◌, ◌^◌, ◌<◌, ◌≤◌, true};
ghost use Rattle.std.specs.List.{list_all};
ghost use Rattle.kernel_contract.specs.Walks.{AreOffsets, IsRun, Stands, count, gone, is_long, position_at};

use crate::axis::Axis;
use crate::run::Run;

/// The offsets of a position in the two sources and in the target, modulo 2^64.
#[derive(Clone, Copy)]
pub struct Offsets {
    pub a: usize,
    pub b: usize,
    pub to: usize,
}

impl Offsets {
    // of the position whose numbers are zeros
    const ORIGIN: Offsets = Offsets { a: 0, b: 0, to: 0 };

    // so many steps further along an axis
    fn forth(self, axis: Axis, steps: u32) -> Offsets
        ensures a { result.a ≡ (self.a + steps * axis.a) % 2 ^ 64 }
        ensures b { result.b ≡ (self.b + steps * axis.b) % 2 ^ 64 }
        ensures to { result.to ≡ (self.to + steps * axis.to) % 2 ^ 64 }
    {
        Offsets {
            a: self.a.wrapping_add(steps as usize * axis.a as usize),
            b: self.b.wrapping_add(steps as usize * axis.b as usize),
            to: self.to.wrapping_add(steps as usize * axis.to as usize),
        }
    }

    // so many steps back along an axis
    fn back(self, axis: Axis, steps: u32) -> Offsets
        ensures a { (result.a + steps * axis.a) % 2 ^ 64 ≡ self.a }
        ensures b { (result.b + steps * axis.b) % 2 ^ 64 ≡ self.b }
        ensures to { (result.to + steps * axis.to) % 2 ^ 64 ≡ self.to }
    {
        Offsets {
            a: self.a.wrapping_sub(steps as usize * axis.a as usize),
            b: self.b.wrapping_sub(steps as usize * axis.b as usize),
            to: self.to.wrapping_sub(steps as usize * axis.to as usize),
        }
    }
}

/// A position among those of `R` axes, or the end.
#[derive(Clone, Copy)]
pub struct Walk<const R: usize> {
    /// Whether it stands at a position.
    pub left: bool,
    /// The position's number at each axis.
    pub at: [u32; R],
    /// The position's offsets.
    pub offsets: Offsets,
}

impl<const R: usize> Walk<R> {
    /// The first position, or the end where there is none.
    pub fn start(axes: &[Axis; R]) -> Walk<R>
        ensures stands { Stands axes.now result }
        ensures gone { gone axes.now result ≡ 0 }
    {
        Walk {
            left: has_positions(axes),
            at: [0; R],
            offsets: Offsets::ORIGIN,
        }
    }

    /// The offsets of the position, which it leaves for the next one or the end.
    pub fn step(&mut self, axes: &[Axis; R]) -> Offsets
        requires left { self.old.left ≡ true }
        requires stands { Stands axes.now self.old }
        ensures stands { Stands axes.now self.new }
        ensures offsets { AreOffsets axes.now (position_at axes.now (gone axes.now self.old)) result }
        ensures gone { gone axes.now self.new ≡ gone axes.now self.old + 1 }
        ensures within { gone axes.now self.new ≤ count axes.now }
    {
        let here = self.offsets;
        self.advance(axes);
        here
    }

    // goes on to the next position, or to the end
    fn advance(&mut self, axes: &[Axis; R])
        requires left { self.old.left ≡ true }
        requires stands { Stands axes.now self.old }
        ensures stands { Stands axes.now self.new }
        ensures gone { gone axes.now self.new ≡ gone axes.now self.old + 1 }
    {
        let mut i = R;
        while i > 0 {
            i -= 1;
            let len = axes[i].len;
            let at = self.at[i];
            if at + 1 < len {
                self.at[i] = at + 1;
                self.offsets = self.offsets.forth(axes[i], 1);
                return;
            }
            self.at[i] = 0;
            self.offsets = self.offsets.back(axes[i], at);
        }
        self.left = false;
    }

    /// The next positions, up to `N`.
    pub fn run<const N: usize>(&mut self, axes: &[Axis; R]) -> Run<N>
        requires some { 0 < N }
        requires left { self.old.left ≡ true }
        requires stands { Stands axes.now self.old }
        ensures stands { Stands axes.now self.new }
        ensures run { IsRun axes.now (gone axes.now self.old) result }
        ensures gone { gone axes.now self.new ≡ gone axes.now self.old + result.len }
        ensures within { gone axes.now self.new ≤ count axes.now }
    {
        let mut run = Run::of(self.step(axes));
        while self.left && run.len < N {
            run.push(self.step(axes));
        }
        run
    }
}

// whether there is a position at all
fn has_positions(axes: &[Axis]) -> bool
    ensures { result ≡ list_all is_long axes.now }
{
    axes.iter().all(|axis| axis.len > 0)
}
