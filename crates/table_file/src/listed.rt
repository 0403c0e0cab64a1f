//! Entries that are read one after the other.

ghost use Rattle.std.specs.Prelude.{ℕ, List, Result};
ghost use Rattle.table_file.specs.declared.fault.TableFault.{TableFault};
ghost use Rattle.table_file.specs.Entries as spec;
ghost use Rattle.table_file.specs.Fields.{Gives};

use crate::entries::{array, index, procedure, text};
use crate::fault::TableFault;
use crate::fields::name_4;
use sial_syntax::Text;
use sip_tables::{ArrayEntry, IndexEntry, ProcedureEntry};
use std::alloc::Global;

/// An entry that is read, given the texts before it.
pub trait Listed: Sized + Drop {
    /// How it is read.
    ghost reading: { List (List ℕ) → List ℕ → ℕ → Result (Self × ℕ) TableFault };

    /// Reads one at a place, and gives the place behind it.
    fn read(
        alloc: Global,
        texts: &[Text],
        bytes: &[u8],
        at: usize,
    ) -> Result<(Self, usize), TableFault>
        ensures { Gives (λ x. x) result (reading texts.now bytes.now at) };
}

impl Listed for Text {
    ghost reading = { λ texts bytes at. spec.text bytes at };

    fn read(
        alloc: Global,
        _texts: &[Text],
        bytes: &[u8],
        at: usize,
    ) -> Result<(Text, usize), TableFault> {
        text(alloc, bytes, at)
    }
}

impl Listed for IndexEntry {
    ghost reading = { spec.index };

    fn read(
        _alloc: Global,
        texts: &[Text],
        bytes: &[u8],
        at: usize,
    ) -> Result<(IndexEntry, usize), TableFault> {
        index(texts, bytes, at)
    }
}

impl Listed for ArrayEntry {
    ghost reading = { spec.array };

    fn read(
        alloc: Global,
        texts: &[Text],
        bytes: &[u8],
        at: usize,
    ) -> Result<(ArrayEntry, usize), TableFault> {
        array(alloc, texts, bytes, at)
    }
}

impl Listed for u32 {
    ghost reading = { spec.scalar };

    fn read(
        _alloc: Global,
        texts: &[Text],
        bytes: &[u8],
        at: usize,
    ) -> Result<(u32, usize), TableFault> {
        name_4(texts, bytes, at)
    }
}

impl Listed for ProcedureEntry {
    ghost reading = { spec.procedure };

    fn read(
        _alloc: Global,
        texts: &[Text],
        bytes: &[u8],
        at: usize,
    ) -> Result<(ProcedureEntry, usize), TableFault> {
        procedure(texts, bytes, at)
    }
}
