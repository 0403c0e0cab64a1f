//! Fields of a file: each reader takes all bytes and a place, and gives a value and the place behind it.

ghost use Rattle.std.specs.Prelude.{◌≡◌, drop, length, slice_get};
ghost use Rattle.table_file.specs.Fields as spec;

use crate::fault::TableFault;
use crate::names::{is_name, is_text};
use byteorder::{BigEndian, ByteOrder};
use sial_syntax::Text;
use std::alloc::Global;

/// The fault of a field at this place.
pub fn field(at: usize) -> TableFault
    ensures { result ≡ TableFault.Field at }
{
    TableFault::Field { at: at as u64 }
}

/// The fault of a field that isn't whole.
pub fn short(bytes: &[u8]) -> TableFault
    ensures { result ≡ TableFault.Short (length bytes.now) }
{
    TableFault::Short {
        at: bytes.len() as u64,
    }
}

// What begins at a place.
fn rest(bytes: &[u8], at: usize) -> &[u8]
    ensures { result.now ≡ drop at bytes.now }
{
    if at <= bytes.len() {
        return &bytes[at..];
    }
    &[]
}

/// One byte.
pub fn byte(bytes: &[u8], at: usize) -> Result<(u8, usize), TableFault>
    ensures { spec.Gives (λ x. x) result (spec.byte bytes.now at) }
{
    match bytes.get(at) {
        Some(byte) => Ok((*byte, at + 1)),
        None => Err(short(bytes)),
    }
}

/// A number of two bytes.
pub fn number_2(bytes: &[u8], at: usize) -> Result<(u16, usize), TableFault>
    ensures { spec.Gives (λ x. x) result (spec.number 2 bytes.now at) }
{
    let rest = rest(bytes, at);
    if rest.len() < 2 {
        return Err(short(bytes));
    }
    Ok((BigEndian::read_u16(rest), at + 2))
}

/// A number of four bytes.
pub fn number_4(bytes: &[u8], at: usize) -> Result<(u32, usize), TableFault>
    ensures { spec.Gives (λ x. x) result (spec.number 4 bytes.now at) }
{
    let rest = rest(bytes, at);
    if rest.len() < 4 {
        return Err(short(bytes));
    }
    Ok((BigEndian::read_u32(rest), at + 4))
}

/// A number of eight bytes.
pub fn number_8(bytes: &[u8], at: usize) -> Result<(u64, usize), TableFault>
    ensures { spec.Gives (λ x. x) result (spec.number 8 bytes.now at) }
{
    let rest = rest(bytes, at);
    if rest.len() < 8 {
        return Err(short(bytes));
    }
    Ok((BigEndian::read_u64(rest), at + 8))
}

/// So many bytes as they are.
pub fn taken(
    alloc: Global,
    size: usize,
    bytes: &[u8],
    at: usize,
) -> Result<(Text, usize), TableFault>
    ensures { spec.Gives (λ x. x) result (spec.taken size bytes.now at) }
{
    let rest = rest(bytes, at);
    if rest.len() < size {
        return Err(short(bytes));
    }
    Ok((Text::from_slice(alloc, &rest[..size])?, at + size))
}

/// A byte that has to be this one.
#[tactic(auto, unfolding(crate::specs::Fields::exactly))]
pub fn exactly(wanted: u8, bytes: &[u8], at: usize) -> Result<usize, TableFault>
    ensures { spec.Gives (λ x. x) result (spec.exactly wanted bytes.now at) }
{
    let (byte, next) = byte(bytes, at)?;
    if byte == wanted {
        return Ok(next);
    }
    Err(field(at))
}

/// So many bytes, each a field of its own, that have to be this one.
pub fn all_exactly(wanted: u8, count: usize, bytes: &[u8], at: usize) -> Result<usize, TableFault>
    ensures { spec.Gives (λ x. x) result (spec.all_exactly wanted count bytes.now at) }
{
    let mut next = at;
    for _ in 0..count {
        let after = exactly(wanted, bytes, next)?;
        next = after;
    }
    Ok(next)
}

/// Bytes that nothing uses.
pub fn unused(count: usize, bytes: &[u8], at: usize) -> Result<usize, TableFault>
    ensures { spec.Gives (λ x. x) result (spec.unused count bytes.now at) }
{
    all_exactly(0, count, bytes, at)
}

// Whether the text of this number is a name, where there is one.
fn is_named(texts: &[Text], number: usize) -> bool
    ensures { result ≡ spec.is_name_or_none (slice_get texts.now number) }
{
    match texts.get(number) {
        Some(text) => is_name(text.as_slice()),
        None => true,
    }
}

// Whether the text of this number may be printed, where there is one.
fn is_printed(texts: &[Text], number: usize) -> bool
    ensures { result ≡ spec.is_text_or_none (slice_get texts.now number) }
{
    match texts.get(number) {
        Some(text) => is_text(text.as_slice()),
        None => true,
    }
}

/// The number of a name among the texts; where there is a text of that number, it is a name.
#[tactic(auto, unfolding(crate::specs::Fields::name))]
pub fn name_4(texts: &[Text], bytes: &[u8], at: usize) -> Result<(u32, usize), TableFault>
    ensures { spec.Gives (λ x. x) result (spec.name texts.now 4 bytes.now at) }
{
    let (number, next) = number_4(bytes, at)?;
    if is_named(texts, number as usize) {
        return Ok((number, next));
    }
    Err(field(at))
}

/// The like, in eight bytes.
#[tactic(auto, unfolding(crate::specs::Fields::name))]
pub fn name_8(texts: &[Text], bytes: &[u8], at: usize) -> Result<(u64, usize), TableFault>
    ensures { spec.Gives (λ x. x) result (spec.name texts.now 8 bytes.now at) }
{
    let (number, next) = number_8(bytes, at)?;
    if is_named(texts, number as usize) {
        return Ok((number, next));
    }
    Err(field(at))
}

/// The number of a printed text among the texts; where there is a text of that number, it may be printed.
#[tactic(auto, unfolding(crate::specs::Fields::printed))]
pub fn printed(texts: &[Text], bytes: &[u8], at: usize) -> Result<(u32, usize), TableFault>
    ensures { spec.Gives (λ x. x) result (spec.printed texts.now bytes.now at) }
{
    let (number, next) = number_4(bytes, at)?;
    if is_printed(texts, number as usize) {
        return Ok((number, next));
    }
    Err(field(at))
}

/// How many places of a tuple are used: one to six.
#[tactic(auto, unfolding(crate::specs::Fields::rank))]
pub fn rank(bytes: &[u8], at: usize) -> Result<(u8, usize), TableFault>
    ensures { spec.Gives (λ x. x) result (spec.rank bytes.now at) }
{
    let (rank, next) = byte(bytes, at)?;
    if 1 <= rank && rank <= 6 {
        return Ok((rank, next));
    }
    Err(field(at))
}

/// So many numbers of two bytes.
pub fn numbers(
    alloc: Global,
    count: u8,
    bytes: &[u8],
    at: usize,
) -> Result<(Vec<u16>, usize), TableFault>
    ensures { spec.Gives (λ x. (x.0.items, x.1)) result (spec.numbers count bytes.now at) }
{
    let mut numbers = Vec::new(alloc);
    let mut next = at;
    for _ in 0..count {
        let (number, after) = number_2(bytes, next)?;
        numbers.push(number)?;
        next = after;
    }
    Ok((numbers, next))
}

/// The six places of a tuple, of which so many are used; all bits of the others are set.
#[tactic(auto, unfolding(crate::specs::Fields::tuple))]
pub fn tuple(
    alloc: Global,
    rank: u8,
    bytes: &[u8],
    at: usize,
) -> Result<(Vec<u16>, usize), TableFault>
    ensures { spec.Gives (λ x. (x.0.items, x.1)) result (spec.tuple rank bytes.now at) }
{
    let (used, next) = numbers(alloc, rank, bytes, at)?;
    let next = all_exactly(
        255,
        12usize.saturating_sub(2 * usize::from(rank)),
        bytes,
        next,
    )?;
    Ok((used, next))
}
