//! The entries of what a program declares.

ghost use Rattle.std.specs.Prelude.{◌≡◌, [], IfOk, OnOk, flat_map, map, length};
ghost use Rattle.sial_syntax.specs.Tree.{tree};
ghost use Rattle.sip_tables.specs.Code.{entries_of};
ghost use Rattle.sip_tables.specs.Entries as spec;
ghost use Rattle.sip_tables.specs.Texts.{bound_texts, range_texts, index_texts, names};
ghost use Rattle.table_compiler.specs.Entered.{AreDeclared};
ghost use Rattle.table_compiler.specs.Grown.{Names};

use crate::flat::Flat;
use sial_syntax::{ArrayDecl, Bound, IndexDecl, Proc, Program, Range, Text, Tuple};
use sip_files::OutOfMemory;
use sip_tables::{ArrayEntry, BoundEntry, IndexEntry, ProcedureEntry, RangeEntry};
use std::alloc::Global;

/// The entries of all that a program declares.
#[derive(Drop)]
pub struct Declared {
    pub indices: Vec<IndexEntry>,
    pub arrays: Vec<ArrayEntry>,
    pub scalars: Vec<u32>,
    pub procedures: Vec<ProcedureEntry>,
}

/// What a program declares; its names are the first texts.
pub fn declare(
    alloc: Global,
    entries: &[u32],
    flat: &mut Flat,
    program: &Program,
) -> Result<Declared, OutOfMemory>
    requires entries { entries.now ≡ entries_of (tree program.now) }
    requires empty { flat.old.texts.items ≡ [] }
    ensures declared { IfOk result (AreDeclared (tree program.now)) }
    ensures texts { OnOk result (Names flat.old flat.new (names (tree program.now))) }
{
    flat.name(alloc, &program.name)?;
    let indices = indices(alloc, flat, program.indices.as_slice())?;
    let arrays = arrays(alloc, flat, program.arrays.as_slice())?;
    let scalars = scalars(alloc, flat, program.scalars.as_slice())?;
    let procedures = procedures(alloc, flat, entries, program.procs.as_slice())?;
    Ok(Declared {
        indices,
        arrays,
        scalars,
        procedures,
    })
}

// A bound; a constant's name comes behind the other texts.
fn bound(alloc: Global, flat: &mut Flat, bound: &Bound) -> Result<BoundEntry, OutOfMemory>
    ensures entry { IfOk result (λ e. e ≡ spec.bound_entry (length flat.old.texts.items) bound.now) }
    ensures texts { OnOk result (Names flat.old flat.new (bound_texts bound.now)) }
{
    match bound {
        Bound::Number(number) => Ok(BoundEntry::Number(*number)),
        Bound::Named(name) => Ok(BoundEntry::Named(u64::from(flat.name(alloc, name)?))),
    }
}

// A range; its constants' names come behind the other texts.
fn range(alloc: Global, flat: &mut Flat, range: &Range) -> Result<RangeEntry, OutOfMemory>
    ensures entry { IfOk result (λ e. e ≡ spec.range_entry (length flat.old.texts.items) range.now) }
    ensures texts { OnOk result (Names flat.old flat.new (range_texts range.now)) }
{
    match range {
        Range::Segments { kind, lo, hi } => {
            let lo = bound(alloc, flat, lo)?;
            let hi = bound(alloc, flat, hi)?;
            Ok(RangeEntry::Segments {
                kind: *kind,
                lo,
                hi,
            })
        }
        Range::Sub { super_index } => Ok(RangeEntry::Sub {
            super_index: u64::from(*super_index),
        }),
    }
}

// An index; its texts come behind the others.
fn index(alloc: Global, flat: &mut Flat, index: &IndexDecl) -> Result<IndexEntry, OutOfMemory>
    ensures entry { IfOk result (λ e. e ≡ spec.index_entry (length flat.old.texts.items) index.now) }
    ensures texts { OnOk result (Names flat.old flat.new (index_texts index.now)) }
{
    let text = flat.name(alloc, &index.name)?;
    let range = range(alloc, flat, &index.range)?;
    Ok(IndexEntry {
        text,
        line: index.line,
        range,
    })
}

// Indices in order; their texts come behind the others.
fn indices(
    alloc: Global,
    flat: &mut Flat,
    indices: &[IndexDecl],
) -> Result<Vec<IndexEntry>, OutOfMemory>
    ensures entries { IfOk result (λ v. v.items ≡ spec.index_entries (length flat.old.texts.items) indices.now) }
    ensures texts { OnOk result (Names flat.old flat.new (flat_map index_texts indices.now)) }
{
    let mut entries = Vec::new(alloc);
    for declared in indices {
        entries.push(index(alloc, flat, declared)?)?;
    }
    Ok(entries)
}

// Arrays in order; their names come behind the other texts.
fn arrays(
    alloc: Global,
    flat: &mut Flat,
    arrays: &[ArrayDecl],
) -> Result<Vec<ArrayEntry>, OutOfMemory>
    ensures entries { IfOk result (λ v. v.items ≡ spec.array_entries (length flat.old.texts.items) arrays.now) }
    ensures texts { OnOk result (Names flat.old flat.new (map (λ a. a.name) arrays.now)) }
{
    let mut entries = Vec::new(alloc);
    for declared in arrays {
        let text = flat.name(alloc, &declared.name)?;
        let dims = Tuple::from_slice(alloc, declared.dims.as_slice())?;
        entries.push(ArrayEntry {
            text,
            line: declared.line,
            kind: declared.kind,
            dims,
        })?;
    }
    Ok(entries)
}

// Scalars in order; their names come behind the other texts.
fn scalars(alloc: Global, flat: &mut Flat, scalars: &[Text]) -> Result<Vec<u32>, OutOfMemory>
    ensures entries { IfOk result (λ v. v.items ≡ spec.scalar_entries (length flat.old.texts.items) scalars.now) }
    ensures texts { OnOk result (Names flat.old flat.new scalars.now) }
{
    let mut entries = Vec::new(alloc);
    for name in scalars {
        entries.push(flat.name(alloc, name)?)?;
    }
    Ok(entries)
}

// Procedures in order, by their first instructions; their names come behind the other texts.
fn procedures(
    alloc: Global,
    flat: &mut Flat,
    entries: &[u32],
    procedures: &[Proc],
) -> Result<Vec<ProcedureEntry>, OutOfMemory>
    requires { length entries.now ≡ length procedures.now }
    ensures entries { IfOk result (λ v. v.items ≡ spec.procedure_entries (length flat.old.texts.items) entries.now) }
    ensures texts { OnOk result (Names flat.old flat.new (map (λ q. q.name) procedures.now)) }
{
    let mut named = Vec::new(alloc);
    for (procedure, entry) in procedures.iter().zip(entries) {
        let text = flat.name(alloc, &procedure.name)?;
        named.push(ProcedureEntry {
            text,
            entry: *entry,
        })?;
    }
    Ok(named)
}
