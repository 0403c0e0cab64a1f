//! Writing a file.

ghost use Rattle.std.specs.Prelude.{◌≡◌, ◌++◌, flat_map, IsTrue};
ghost use Rattle.sip_files.specs.Sink.{Wrote};
ghost use Rattle.table_file.specs.Bytes as spec;

use crate::entry::Entry;
use crate::parts::word_length;
use crate::version::version;
use sip_files::{Failed, Sink};
use sip_tables::{Instruction, Tables};

/// Appends the file of some tables to a sink, with no memory.
pub fn encode<K: Sink>(tables: &Tables, sink: &mut K) -> Result<(), Failed>
    ensures wrote { Wrote (K.written sink.old) (K.written sink.new) (K.faults sink.old) (K.faults sink.new) (K.kept sink.old) (K.kept sink.new) (spec.bytes tables.now) result }
{
    sink.write(&head(tables.code()))?;
    list(sink, tables.texts())?;
    list(sink, tables.indices())?;
    list(sink, tables.arrays())?;
    list(sink, tables.scalars())?;
    list(sink, tables.procedures())?;
    list(sink, tables.code())
}

// The mark and the version.
fn head(code: &[Instruction]) -> [u8; 6]
    ensures { result ≡ spec.head_bytes code.now }
{
    let [_, version] = version(code).to_be_bytes();
    [83, 73, 80, 84, 0, version]
}

// A list: how many entries it has, and these.
fn list<T: Entry, K: Sink>(sink: &mut K, entries: &[T]) -> Result<(), Failed>
    ensures { Wrote (K.written sink.old) (K.written sink.new) (K.faults sink.old) (K.faults sink.new) (K.kept sink.old) (K.kept sink.new) (spec.list_bytes T.bytes entries.now) result }
{
    sink.write(&word_length(entries.len()))?;
    all(sink, entries)
}

// Entries in order.
fn all<T: Entry, K: Sink>(sink: &mut K, entries: &[T]) -> Result<(), Failed>
    ensures { Wrote (K.written sink.old) (K.written sink.new) (K.faults sink.old) (K.faults sink.new) (K.kept sink.old) (K.kept sink.new) (flat_map T.bytes entries.now) result }
{
    for entry in entries {
        entry.write(sink)?;
    }
    Ok(())
}
