//! The words of the slots, all taken at the opening.
#![tactic(auto, using(crate::proofs::Laws::all))]

ghost use Rattle.std.specs.Prelude.{◌≡◌, ◌≢◌, ◌≤◌, ◌<◌, length, replicate, take, slice_set, IfOk};
ghost use Rattle.std.specs.Borrow.{sem};
ghost use Rattle.block_pool.specs.Memory.{class_count, words_at, with_front};
ghost use Rattle.block_pool.specs.Opened.{classes_from, zeros_of};
ghost use Rattle.block_pool.specs.Mixed.{mixed};

use crate::how::How;
use crate::mix::{mix_beside, write_front};
use crate::runs::{Run, count_words, place_of, runs_of};
use std::alloc::{AllocError, Global};
use std::marker::Model;

/// The words of all slots, one slot after another.
#[derive(Drop)]
pub(crate) struct Rows {
    runs: Vec<Run>,
    words: Vec<u64>,
}

impl Model for Rows {
    ghost use Rattle.std.specs.Prelude.{◌≡◌, ℕ, List, length};
    ghost use Rattle.block_pool.specs.Cut.{cut, total};
    ghost use Rattle.block_pool.specs.Runs.{widths_of};

    ghost Value = { List (List ℕ) };

    ghost view = { λ r. cut (widths_of r.runs.items) r.words.items };

    ghost invariant = { λ r. length r.words.items ≡ total (widths_of r.runs.items) };
}

impl Rows {
    ghost use Rattle.block_pool.specs.LendsRow.{lends_row};

    pub(crate) fn row(&self, slot: usize) -> &[u64]
        requires { slot < length self.now }
        ensures { result.now ≡ words_at self.now slot }
    {
        &self.words[place_of(&self.runs, slot)]
    }

    pub(crate) fn row_mut(&mut self, slot: usize) -> &mut [u64]
        requires { slot < length self.old }
        ensures* writes_back { sem 𝓛 (lends_row self.entry slot result) }
        ensures value { result.now ≡ words_at self.old slot }
    {
        let place = place_of(&self.runs, slot);
        self.words.slice_mut(place)
    }

    // A row is zeros.
    pub(crate) fn zero(&mut self, slot: usize)
        requires { slot < length self.old }
        ensures { self.new ≡ slice_set self.old slot (replicate (length (words_at self.old slot)) 0) }
    {
        self.row_mut(slot).fill(0);
    }

    // Words replace the front of a row.
    pub(crate) fn write_front(&mut self, slot: usize, from: &[u64])
        requires within { slot < length self.old }
        requires fits { length from.now ≤ length (words_at self.old slot) }
        ensures { self.new ≡ slice_set self.old slot (with_front (words_at self.old slot) from.now) }
    {
        write_front(self.row_mut(slot), from);
    }

    // The first words of one row meet another row.
    pub(crate) fn mix(&mut self, from: usize, to: usize, len: usize, how: How)
        requires from { from < length self.old }
        requires to { to < length self.old }
        requires apart { from ≢ to }
        requires from_len { len ≤ length (words_at self.old from) }
        requires to_len { len ≤ length (words_at self.old to) }
        ensures { self.new ≡ slice_set self.old to (mixed how len (words_at self.old to) (words_at self.old from)) }
    {
        let from = place_of(&self.runs, from).start;
        let to = place_of(&self.runs, to).start;
        mix_beside(self.words.as_mut_slice(), from, to, len, how);
    }

    // The first words of one row replace those of another.
    pub(crate) fn copy_front(&mut self, from: usize, to: usize, len: usize)
        requires from { from < length self.old }
        requires to { to < length self.old }
        requires apart { from ≢ to }
        requires from_len { len ≤ length (words_at self.old from) }
        requires to_len { len ≤ length (words_at self.old to) }
        ensures { self.new ≡ slice_set self.old to (with_front (words_at self.old to) (take len (words_at self.old from))) }
    {
        self.mix(from, to, len, How::Set);
    }
}

// A row of zeros for each slot, as wide as its class.
pub(crate) fn zero_rows(alloc: Global, counts: &[u32], widths: &[u32]) -> Result<Rows, AllocError>
    requires { length counts.now ≤ class_count }
    ensures { IfOk result (λ r. r ≡ zeros_of widths.now (classes_from 0 counts.now)) }
{
    let runs = runs_of(alloc, counts, widths)?;
    let count = count_words(&runs).ok_or(AllocError)?;
    let words = vec![in alloc; 0u64; count]?;
    Ok(Rows { runs, words })
}
