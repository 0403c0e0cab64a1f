//! What a program declares.

ghost use Rattle.std.specs.Prelude.{◌≡◌, [], map};
ghost use Rattle.sial_syntax.specs.Tree.{procedure as spec_procedure};
ghost use Rattle.table_verify.specs.Names as spec;
ghost use Rattle.table_verify.specs.Rest.{Gives, numbered as spec_numbered, seen};

use crate::read_fault::ReadFault;
use crate::rest::{Rest, numbered};
use sial_syntax::{ArrayDecl, Bound, IndexDecl, Kind, Proc, Range, Text, Tuple};
use sip_tables::{ArrayEntry, BoundEntry, IndexEntry, ProcedureEntry, RangeEntry};
use std::alloc::Global;

// The name of a number, if it is the next text.
fn name<'a>(alloc: Global, number: u64, rest: Rest<'a>) -> Result<(Text, Rest<'a>), ReadFault>
    ensures { Gives (λ x. (x.0, seen x.1)) result (spec_numbered number (seen rest.entry)) }
{
    let (text, rest) = numbered(number, rest)?;
    let text = Text::from_slice(alloc, text.as_slice())?;
    Ok((text, rest))
}

// A bound.
fn bound<'a>(
    alloc: Global,
    entry: BoundEntry,
    rest: Rest<'a>,
) -> Result<(Bound, Rest<'a>), ReadFault>
    ensures { Gives (λ x. (x.0, seen x.1)) result (spec.bound_of entry (seen rest.entry)) }
{
    match entry {
        BoundEntry::Number(number) => Ok((Bound::Number(number), rest)),
        BoundEntry::Named(number) => {
            let (name, rest) = name(alloc, number, rest)?;
            Ok((Bound::Named(name), rest))
        }
    }
}

// The range of two bounds.
#[tactic(auto, unfolding(crate::specs::Names::segments))]
fn segments<'a>(
    alloc: Global,
    kind: Kind,
    lo: BoundEntry,
    hi: BoundEntry,
    rest: Rest<'a>,
) -> Result<(Range, Rest<'a>), ReadFault>
    ensures { Gives (λ x. (x.0, seen x.1)) result (spec.segments kind lo hi (seen rest.entry)) }
{
    let (lo, rest) = bound(alloc, lo, rest)?;
    let (hi, rest) = bound(alloc, hi, rest)?;
    Ok((Range::Segments { kind, lo, hi }, rest))
}

// A range.
fn range<'a>(
    alloc: Global,
    entry: RangeEntry,
    rest: Rest<'a>,
) -> Result<(Range, Rest<'a>), ReadFault>
    ensures { Gives (λ x. (x.0, seen x.1)) result (spec.range_of entry (seen rest.entry)) }
{
    match entry {
        RangeEntry::Segments { kind, lo, hi } => segments(alloc, kind, lo, hi, rest),
        RangeEntry::Sub { super_index } if super_index < 1 << 16 => Ok((
            Range::Sub {
                super_index: super_index as u16,
            },
            rest,
        )),
        RangeEntry::Sub { .. } => Err(ReadFault::NotAProgram),
    }
}

// An index.
#[tactic(auto, unfolding(crate::specs::Names::index))]
fn index<'a>(
    alloc: Global,
    entry: &IndexEntry,
    rest: Rest<'a>,
) -> Result<(IndexDecl, Rest<'a>), ReadFault>
    ensures { Gives (λ x. (x.0, seen x.1)) result (spec.index entry.now (seen rest.entry)) }
{
    let (name, rest) = name(alloc, u64::from(entry.text), rest)?;
    let (range, rest) = range(alloc, entry.range, rest)?;
    Ok((
        IndexDecl {
            name,
            line: entry.line,
            range,
        },
        rest,
    ))
}

// An array.
#[tactic(auto, unfolding(crate::specs::Names::array))]
fn array<'a>(
    alloc: Global,
    entry: &ArrayEntry,
    rest: Rest<'a>,
) -> Result<(ArrayDecl, Rest<'a>), ReadFault>
    ensures { Gives (λ x. (x.0, seen x.1)) result (spec.array entry.now (seen rest.entry)) }
{
    let (name, rest) = name(alloc, u64::from(entry.text), rest)?;
    let dims = Tuple::from_slice(alloc, entry.dims.as_slice())?;
    Ok((
        ArrayDecl {
            name,
            line: entry.line,
            kind: entry.kind,
            dims,
        },
        rest,
    ))
}

// A scalar's name.
fn scalar<'a>(alloc: Global, entry: &u32, rest: Rest<'a>) -> Result<(Text, Rest<'a>), ReadFault>
    ensures { Gives (λ x. (x.0, seen x.1)) result (spec_numbered entry.now (seen rest.entry)) }
{
    name(alloc, u64::from(*entry), rest)
}

// A procedure's name, with no statement yet.
#[tactic(auto, unfolding(crate::specs::Names::named))]
fn named<'a>(
    alloc: Global,
    entry: &ProcedureEntry,
    rest: Rest<'a>,
) -> Result<(Proc, Rest<'a>), ReadFault>
    ensures { Gives (λ x. (spec_procedure x.0, seen x.1)) result (spec.named entry.now (seen rest.entry)) }
{
    let (name, rest) = name(alloc, u64::from(entry.text), rest)?;
    Ok((
        Proc {
            name,
            body: Vec::new(alloc),
        },
        rest,
    ))
}

/// All indices.
pub fn indices<'a>(
    alloc: Global,
    entries: &[IndexEntry],
    start: Rest<'a>,
) -> Result<(Vec<IndexDecl>, Rest<'a>), ReadFault>
    ensures { Gives (λ x. (x.0.items, seen x.1)) result (spec.each spec.index [] entries.now (seen start.entry)) }
{
    let mut indices = Vec::new(alloc);
    let mut rest = start;
    for entry in entries {
        let (read, behind) = index(alloc, entry, rest)?;
        indices.push(read)?;
        rest = behind;
    }
    Ok((indices, rest))
}

/// All arrays.
pub fn arrays<'a>(
    alloc: Global,
    entries: &[ArrayEntry],
    start: Rest<'a>,
) -> Result<(Vec<ArrayDecl>, Rest<'a>), ReadFault>
    ensures { Gives (λ x. (x.0.items, seen x.1)) result (spec.each spec.array [] entries.now (seen start.entry)) }
{
    let mut arrays = Vec::new(alloc);
    let mut rest = start;
    for entry in entries {
        let (read, behind) = array(alloc, entry, rest)?;
        arrays.push(read)?;
        rest = behind;
    }
    Ok((arrays, rest))
}

/// All scalars.
pub fn scalars<'a>(
    alloc: Global,
    entries: &[u32],
    start: Rest<'a>,
) -> Result<(Vec<Text>, Rest<'a>), ReadFault>
    ensures { Gives (λ x. (x.0.items, seen x.1)) result (spec.each spec_numbered [] entries.now (seen start.entry)) }
{
    let mut scalars = Vec::new(alloc);
    let mut rest = start;
    for entry in entries {
        let (read, behind) = scalar(alloc, entry, rest)?;
        scalars.push(read)?;
        rest = behind;
    }
    Ok((scalars, rest))
}

/// All procedures by name, with no statement yet.
pub fn procedures<'a>(
    alloc: Global,
    entries: &[ProcedureEntry],
    start: Rest<'a>,
) -> Result<(Vec<Proc>, Rest<'a>), ReadFault>
    ensures { Gives (λ x. (map spec_procedure x.0.items, seen x.1)) result (spec.each spec.named [] entries.now (seen start.entry)) }
{
    let mut procedures = Vec::new(alloc);
    let mut rest = start;
    for entry in entries {
        let (read, behind) = named(alloc, entry, rest)?;
        procedures.push(read)?;
        rest = behind;
    }
    Ok((procedures, rest))
}
