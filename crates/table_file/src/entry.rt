//! What the lists of a file hold.

ghost use Rattle.std.specs.Prelude.{ℕ, List};
ghost use Rattle.sip_files.specs.Sink.{Wrote};
ghost use Rattle.table_file.specs.Bytes as spec;

use crate::declared::{array_bytes, index_bytes, procedure_bytes, word_bytes};
use crate::parts::short_length;
use crate::rows::{row_head, row_of};
use sial_syntax::Text;
use sip_files::{Failed, Sink};
use sip_tables::{ArrayEntry, IndexEntry, Instruction, ProcedureEntry};

/// An entry of a list, which is written as some bytes.
pub trait Entry {
    /// Its bytes.
    ghost bytes: { Self → List ℕ };

    /// Writes it.
    fn write<K: Sink>(&self, sink: &mut K) -> Result<(), Failed>
        ensures { Wrote (K.written sink.old) (K.written sink.new) (K.faults sink.old) (K.faults sink.new) (K.kept sink.old) (K.kept sink.new) (bytes self.now) result };
}

impl Entry for Text {
    ghost bytes = { λ t. spec.text_bytes t };

    fn write<K: Sink>(&self, sink: &mut K) -> Result<(), Failed> {
        sink.write(&short_length(self.len()))?;
        sink.write(self.as_slice())
    }
}

impl Entry for IndexEntry {
    ghost bytes = { λ i. spec.index_bytes i };

    fn write<K: Sink>(&self, sink: &mut K) -> Result<(), Failed> {
        sink.write(&index_bytes(self))
    }
}

impl Entry for ArrayEntry {
    ghost bytes = { λ a. spec.array_bytes a };

    fn write<K: Sink>(&self, sink: &mut K) -> Result<(), Failed> {
        sink.write(&array_bytes(self))
    }
}

impl Entry for u32 {
    ghost bytes = { λ s. spec.scalar_bytes s };

    fn write<K: Sink>(&self, sink: &mut K) -> Result<(), Failed> {
        sink.write(&word_bytes(*self))
    }
}

impl Entry for ProcedureEntry {
    ghost bytes = { λ p. spec.procedure_bytes p };

    fn write<K: Sink>(&self, sink: &mut K) -> Result<(), Failed> {
        sink.write(&procedure_bytes(self))
    }
}

impl Entry for Instruction {
    ghost bytes = { λ i. spec.instruction_bytes i };

    fn write<K: Sink>(&self, sink: &mut K) -> Result<(), Failed> {
        let row = row_of(self);
        sink.write(&row_head(&row))?;
        sink.write(&row.a)?;
        sink.write(&row.b)?;
        sink.write(&row.c)
    }
}
