//! The six lists together.

ghost use Rattle.std.specs.Prelude.{◌≡◌, ◌<◌, ℕ, List, Some, slice_get, length};
ghost use Rattle.sip_tables.specs.Lists.{Lists};

use crate::array::ArrayEntry;
use crate::index::IndexEntry;
use crate::instruction::Instruction;
use crate::procedure::ProcedureEntry;
use sial_syntax::Text;
use std::marker::Model;

/// A program as six lists, each entry with a number from 0 on.
#[derive(Drop)]
pub struct Tables {
    texts: Vec<Text>,
    indices: Vec<IndexEntry>,
    arrays: Vec<ArrayEntry>,
    scalars: Vec<u32>,
    procedures: Vec<ProcedureEntry>,
    code: Vec<Instruction>,
}

impl Model for Tables {
    ghost use Rattle.sip_tables.specs.Lists.{Lists};

    ghost Value = { Lists };

    ghost view = { λ t. record {
      texts = t.texts.items;
      indices = t.indices.items;
      arrays = t.arrays.items;
      scalars = t.scalars.items;
      procedures = t.procedures.items;
      code = t.code.items;
    } };
}

impl Tables {
    /// Tables of these lists, with no memory taken.
    pub fn new(
        texts: Vec<Text>,
        indices: Vec<IndexEntry>,
        arrays: Vec<ArrayEntry>,
        scalars: Vec<u32>,
        procedures: Vec<ProcedureEntry>,
        code: Vec<Instruction>,
    ) -> Tables
        ensures { result ≡ record {
          texts = texts.items;
          indices = indices.items;
          arrays = arrays.items;
          scalars = scalars.items;
          procedures = procedures.items;
          code = code.items;
        } }
    {
        Tables {
            texts,
            indices,
            arrays,
            scalars,
            procedures,
            code,
        }
    }

    /// All texts.
    pub fn texts(&self) -> &[Text]
        ensures { result.now ≡ self.now.texts }
    {
        self.texts.as_slice()
    }

    /// All indices.
    pub fn indices(&self) -> &[IndexEntry]
        ensures { result.now ≡ self.now.indices }
    {
        self.indices.as_slice()
    }

    /// All arrays.
    pub fn arrays(&self) -> &[ArrayEntry]
        ensures { result.now ≡ self.now.arrays }
    {
        self.arrays.as_slice()
    }

    /// All scalars, each by the number of its name among the texts.
    pub fn scalars(&self) -> &[u32]
        ensures { result.now ≡ self.now.scalars }
    {
        self.scalars.as_slice()
    }

    /// All procedures.
    pub fn procedures(&self) -> &[ProcedureEntry]
        ensures { result.now ≡ self.now.procedures }
    {
        self.procedures.as_slice()
    }

    /// All instructions.
    pub fn code(&self) -> &[Instruction]
        ensures { result.now ≡ self.now.code }
    {
        self.code.as_slice()
    }

    /// How many texts there are.
    pub fn texts_len(&self) -> usize
        ensures { result ≡ length self.now.texts }
    {
        self.texts.len()
    }

    /// How many indices there are.
    pub fn indices_len(&self) -> usize
        ensures { result ≡ length self.now.indices }
    {
        self.indices.len()
    }

    /// How many arrays there are.
    pub fn arrays_len(&self) -> usize
        ensures { result ≡ length self.now.arrays }
    {
        self.arrays.len()
    }

    /// How many scalars there are.
    pub fn scalars_len(&self) -> usize
        ensures { result ≡ length self.now.scalars }
    {
        self.scalars.len()
    }

    /// How many procedures there are.
    pub fn procedures_len(&self) -> usize
        ensures { result ≡ length self.now.procedures }
    {
        self.procedures.len()
    }

    /// How many instructions there are.
    pub fn code_len(&self) -> usize
        ensures { result ≡ length self.now.code }
    {
        self.code.len()
    }

    /// A text by its number.
    pub fn text(&self, at: usize) -> &Text
        requires { at < length self.now.texts }
        ensures { slice_get self.now.texts at ≡ Some result.now }
    {
        &self.texts[at]
    }

    /// An index by its number.
    pub fn index(&self, at: usize) -> &IndexEntry
        requires { at < length self.now.indices }
        ensures { slice_get self.now.indices at ≡ Some result.now }
    {
        &self.indices[at]
    }

    /// An array by its number.
    pub fn array(&self, at: usize) -> &ArrayEntry
        requires { at < length self.now.arrays }
        ensures { slice_get self.now.arrays at ≡ Some result.now }
    {
        &self.arrays[at]
    }

    /// The number of a scalar's name among the texts.
    pub fn scalar(&self, at: usize) -> u32
        requires { at < length self.now.scalars }
        ensures { slice_get self.now.scalars at ≡ Some result }
    {
        self.scalars[at]
    }

    /// A procedure by its number.
    pub fn procedure(&self, at: usize) -> &ProcedureEntry
        requires { at < length self.now.procedures }
        ensures { slice_get self.now.procedures at ≡ Some result.now }
    {
        &self.procedures[at]
    }

    /// An instruction by its number.
    pub fn instruction(&self, at: usize) -> &Instruction
        requires { at < length self.now.code }
        ensures { slice_get self.now.code at ≡ Some result.now }
    {
        &self.code[at]
    }
}
