//! Lists of names and of slots.

ghost use Rattle.std.specs.Prelude.{◌≡◌, ◌∷◌, ◌++◌, []};
ghost use Rattle.sial_syntax.specs.Tree.{tree};
ghost use Rattle.sip_files.specs.Sink.{Wrote};
ghost use Rattle.sial_printer.specs.Parts as spec;
ghost use Rattle.sial_printer.specs.Spelling.{spelling};
ghost use Rattle.sial_printer.specs.Symbols.{slot_symbol};

use crate::names::{array_name, index_name};
use crate::print::{Print, all};
use sial_syntax::{BlockRef, Program, Slot};
use sip_files::{Failed, Sink};

/// An index behind the first of a list.
impl Print for u16 {
    ghost text = { λ p i. spec.further_name p i };

    fn print<K: Sink>(&self, program: &Program, sink: &mut K) -> Result<(), Failed> {
        sink.write(b", ")?;
        sink.write(index_name(program, *self))
    }
}

/// A slot behind the first of a list.
impl Print for Slot {
    ghost text = { λ p x. spec.further_slot p x };

    fn print<K: Sink>(&self, program: &Program, sink: &mut K) -> Result<(), Failed> {
        sink.write(b", ")?;
        sink.write(slot_bytes(program, *self))
    }
}

// How a slot is written.
fn slot_bytes(program: &Program, slot: Slot) -> &[u8]
    ensures { result.now ≡ spelling (slot_symbol (tree program.now) slot) }
{
    match slot {
        Slot::At(index) => index_name(program, index),
        Slot::All => b"*",
    }
}

/// Indices with commas between.
pub fn names<K: Sink>(program: &Program, sink: &mut K, indices: &[u16]) -> Result<(), Failed>
    ensures { Wrote (K.written sink.old) (K.written sink.new) (K.faults sink.old) (K.faults sink.new) (K.kept sink.old) (K.kept sink.new) (spec.names_text (tree program.now) indices.now) result }
{
    let [first, others @ ..] = indices else {
        return Ok(());
    };
    sink.write(index_name(program, *first))?;
    all(program, sink, others)
}

/// Indices with commas between, in parentheses.
pub fn dims<K: Sink>(program: &Program, sink: &mut K, indices: &[u16]) -> Result<(), Failed>
    ensures { Wrote (K.written sink.old) (K.written sink.new) (K.faults sink.old) (K.faults sink.new) (K.kept sink.old) (K.kept sink.new) (spec.dims_text (tree program.now) indices.now) result }
{
    sink.write(b"(")?;
    names(program, sink, indices)?;
    sink.write(b")")
}

/// A block.
pub fn block<K: Sink>(program: &Program, sink: &mut K, block: &BlockRef) -> Result<(), Failed>
    ensures { Wrote (K.written sink.old) (K.written sink.new) (K.faults sink.old) (K.faults sink.new) (K.kept sink.old) (K.kept sink.new) (spec.block_text (tree program.now) block.now) result }
{
    sink.write(array_name(program, block.array))?;
    dims(program, sink, block.at.as_slice())
}

// Slots with commas between.
fn listed<K: Sink>(program: &Program, sink: &mut K, slots: &[Slot]) -> Result<(), Failed>
    ensures { Wrote (K.written sink.old) (K.written sink.new) (K.faults sink.old) (K.faults sink.new) (K.kept sink.old) (K.kept sink.new) (spec.listed_text (tree program.now) slots.now) result }
{
    let [first, others @ ..] = slots else {
        return Ok(());
    };
    sink.write(slot_bytes(program, *first))?;
    all(program, sink, others)
}

/// Slots with commas between, in parentheses.
pub fn slots<K: Sink>(program: &Program, sink: &mut K, slots: &[Slot]) -> Result<(), Failed>
    ensures { Wrote (K.written sink.old) (K.written sink.new) (K.faults sink.old) (K.faults sink.new) (K.kept sink.old) (K.kept sink.new) (spec.slots_text (tree program.now) slots.now) result }
{
    sink.write(b"(")?;
    listed(program, sink, slots)?;
    sink.write(b")")
}
