//! Entries of texts, indices, arrays and procedures, read field by field.

ghost use Rattle.std.specs.Prelude.{◌≡◌};
ghost use Rattle.table_file.specs.Entries as spec;
ghost use Rattle.table_file.specs.Fields.{Gives};

use crate::fault::TableFault;
use crate::fields::{
    byte, exactly, field, name_4, name_8, number_2, number_4, number_8, rank, taken, tuple, unused,
};
use crate::names::is_name;
use sial_syntax::{ArrayKind, Kind, Text, Tuple};
use sip_tables::{ArrayEntry, BoundEntry, IndexEntry, ProcedureEntry, RangeEntry};
use std::alloc::Global;

fn kind_of(number: u8) -> Option<Kind>
    ensures { result ≡ spec.kind_of number }
{
    match number {
        1 => Some(Kind::Ao),
        2 => Some(Kind::Mo),
        3 => Some(Kind::Moa),
        4 => Some(Kind::Mob),
        5 => Some(Kind::Index),
        _ => None,
    }
}

fn array_kind_of(number: u8) -> Option<ArrayKind>
    ensures { result ≡ spec.array_kind_of number }
{
    match number {
        1 => Some(ArrayKind::Static),
        2 => Some(ArrayKind::Temp),
        3 => Some(ArrayKind::Local),
        4 => Some(ArrayKind::Distributed),
        5 => Some(ArrayKind::Served),
        _ => None,
    }
}

/// The first text, which is the program's name.
#[tactic(auto, unfolding(crate::specs::Entries::program_name))]
pub fn program_name(alloc: Global, bytes: &[u8], at: usize) -> Result<(Text, usize), TableFault>
    ensures { Gives (λ x. x) result (spec.program_name bytes.now at) }
{
    let (len, next) = number_2(bytes, at)?;
    if !(1 <= len && len <= 64) {
        return Err(field(at));
    }
    let (text, next) = taken(alloc, usize::from(len), bytes, next)?;
    if is_name(text.as_slice()) {
        return Ok((text, next));
    }
    Err(field(at))
}

/// Another text.
#[tactic(auto, unfolding(crate::specs::Entries::text))]
pub fn text(alloc: Global, bytes: &[u8], at: usize) -> Result<(Text, usize), TableFault>
    ensures { Gives (λ x. x) result (spec.text bytes.now at) }
{
    let (len, next) = number_2(bytes, at)?;
    if len <= 1024 {
        return taken(alloc, usize::from(len), bytes, next);
    }
    Err(TableFault::TooMany { at: at as u64 })
}

// An end of a range.
#[tactic(auto, unfolding(crate::specs::Entries::bound))]
fn bound(texts: &[Text], bytes: &[u8], at: usize) -> Result<(BoundEntry, usize), TableFault>
    ensures { Gives (λ x. x) result (spec.bound texts.now bytes.now at) }
{
    let (tag, next) = byte(bytes, at)?;
    if tag == 0 {
        let (number, next) = number_8(bytes, next)?;
        return Ok((BoundEntry::Number(number), next));
    }
    if tag == 1 {
        let (text, next) = name_8(texts, bytes, next)?;
        return Ok((BoundEntry::Named(text), next));
    }
    Err(field(at))
}

// The rest of an index over segments.
#[tactic(auto, unfolding(crate::specs::Entries::segments))]
fn segments(
    texts: &[Text],
    kind: Kind,
    bytes: &[u8],
    at: usize,
) -> Result<(IndexEntry, usize), TableFault>
    ensures { Gives (λ x. x) result (spec.segments texts.now kind bytes.now at) }
{
    let (text, next) = name_4(texts, bytes, at)?;
    let (line, next) = number_4(bytes, next)?;
    let (lo, next) = bound(texts, bytes, next)?;
    let (hi, next) = bound(texts, bytes, next)?;
    let range = RangeEntry::Segments { kind, lo, hi };
    Ok((IndexEntry { text, line, range }, next))
}

// The rest of a subindex.
#[tactic(auto, unfolding(crate::specs::Entries::subindex))]
fn subindex(texts: &[Text], bytes: &[u8], at: usize) -> Result<(IndexEntry, usize), TableFault>
    ensures { Gives (λ x. x) result (spec.subindex texts.now bytes.now at) }
{
    let (text, next) = name_4(texts, bytes, at)?;
    let (line, next) = number_4(bytes, next)?;
    let next = exactly(2, bytes, next)?;
    let (super_index, next) = number_8(bytes, next)?;
    let next = exactly(2, bytes, next)?;
    let next = unused(8, bytes, next)?;
    let range = RangeEntry::Sub { super_index };
    Ok((IndexEntry { text, line, range }, next))
}

/// An index.
#[tactic(auto, unfolding(crate::specs::Entries::index))]
pub fn index(texts: &[Text], bytes: &[u8], at: usize) -> Result<(IndexEntry, usize), TableFault>
    ensures { Gives (λ x. x) result (spec.index texts.now bytes.now at) }
{
    let (counted, next) = byte(bytes, at)?;
    if counted == 6 {
        return subindex(texts, bytes, next);
    }
    match kind_of(counted) {
        Some(kind) => segments(texts, kind, bytes, next),
        None => Err(field(at)),
    }
}

// An array's kind.
#[tactic(auto, unfolding(crate::specs::Entries::array_kind))]
fn array_kind(bytes: &[u8], at: usize) -> Result<(ArrayKind, usize), TableFault>
    ensures { Gives (λ x. x) result (spec.array_kind bytes.now at) }
{
    let (number, next) = byte(bytes, at)?;
    match array_kind_of(number) {
        Some(kind) => Ok((kind, next)),
        None => Err(field(at)),
    }
}

/// An array.
#[tactic(auto, unfolding(crate::specs::Entries::array))]
pub fn array(
    alloc: Global,
    texts: &[Text],
    bytes: &[u8],
    at: usize,
) -> Result<(ArrayEntry, usize), TableFault>
    ensures { Gives (λ x. x) result (spec.array texts.now bytes.now at) }
{
    let (kind, next) = array_kind(bytes, at)?;
    let (text, next) = name_4(texts, bytes, next)?;
    let (line, next) = number_4(bytes, next)?;
    let (rank, next) = rank(bytes, next)?;
    let (dims, next) = tuple(alloc, rank, bytes, next)?;
    let dims = Tuple::from_slice(alloc, dims.as_slice())?;
    Ok((
        ArrayEntry {
            text,
            line,
            kind,
            dims,
        },
        next,
    ))
}

/// A procedure.
#[tactic(auto, unfolding(crate::specs::Entries::procedure))]
pub fn procedure(
    texts: &[Text],
    bytes: &[u8],
    at: usize,
) -> Result<(ProcedureEntry, usize), TableFault>
    ensures { Gives (λ x. x) result (spec.procedure texts.now bytes.now at) }
{
    let (text, next) = name_4(texts, bytes, at)?;
    let (entry, next) = number_4(bytes, next)?;
    Ok((ProcedureEntry { text, entry }, next))
}
