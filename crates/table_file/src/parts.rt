//! Operands of instructions, of sixteen bytes each.

ghost use Rattle.std.specs.Prelude.{◌≡◌, map, length, slice_index_or};
ghost use Rattle.table_file.specs.Bytes as spec;

use byteorder::{BigEndian, ByteOrder};
use sial_syntax::{BlockRef, Operand, Slot, Target, Value};

/// A length in two bytes.
pub fn short_length(len: usize) -> [u8; 2]
    ensures { result ≡ spec.short len }
{
    let [_, _, _, _, _, _, high, low] = long_length(len);
    [high, low]
}

/// A length in four bytes.
pub fn word_length(len: usize) -> [u8; 4]
    ensures { result ≡ spec.word len }
{
    let [_, _, _, _, first, second, third, fourth] = long_length(len);
    [first, second, third, fourth]
}

// A length in eight bytes.
fn long_length(len: usize) -> [u8; 8]
    ensures { result ≡ spec.long len }
{
    let mut bytes = [0u8; 8];
    BigEndian::write_u64(bytes.as_mut_slice(), len as u64);
    bytes
}

/// The lowest byte of a length.
pub fn rank(len: usize) -> u8
    ensures { result ≡ spec.low len }
{
    (len % 256) as u8
}

/// A place of a tuple; one that isn't used has all bits set.
pub fn place(numbers: &[u16], at: usize) -> u16
    ensures { result ≡ slice_index_or numbers.now at 65535 }
{
    numbers.get(at).copied().unwrap_or(65535)
}

/// No operand.
pub fn no_part() -> [u8; 16]
    ensures { result ≡ spec.no_part }
{
    [0; 16]
}

// An operand whose last twelve bytes are zeros.
fn plain(tag: u8, rank: u8, number: u16) -> [u8; 16]
    ensures { result ≡ spec.part tag rank number (spec.zeros 12) }
{
    let mut part = [0u8; 16];
    part[0] = tag;
    part[1] = rank;
    BigEndian::write_u16(&mut part[2..], number);
    part
}

// An operand with a tuple.
fn tuple(tag: u8, number: u16, numbers: &[u16]) -> [u8; 16]
    ensures { result ≡ spec.part tag (spec.low (length numbers.now)) number (spec.places numbers.now) }
{
    let mut part = plain(tag, rank(numbers.len()), number);
    BigEndian::write_u16(&mut part[4..], place(numbers, 0));
    BigEndian::write_u16(&mut part[6..], place(numbers, 1));
    BigEndian::write_u16(&mut part[8..], place(numbers, 2));
    BigEndian::write_u16(&mut part[10..], place(numbers, 3));
    BigEndian::write_u16(&mut part[12..], place(numbers, 4));
    BigEndian::write_u16(&mut part[14..], place(numbers, 5));
    part
}

/// A number.
pub fn number_part(number: u64) -> [u8; 16]
    ensures { result ≡ spec.number_part number }
{
    let mut part = plain(1, 0, 0);
    BigEndian::write_u64(&mut part[4..], number);
    part
}

/// A scalar.
pub fn scalar_part(scalar: u16) -> [u8; 16]
    ensures { result ≡ spec.scalar_part scalar }
{
    plain(2, 0, scalar)
}

/// A block.
pub fn block_part(block: &BlockRef) -> [u8; 16]
    ensures { result ≡ spec.block_part block.now }
{
    tuple(3, block.array, block.at.as_slice())
}

/// An index.
pub fn index_part(index: u16) -> [u8; 16]
    ensures { result ≡ spec.index_part index }
{
    plain(4, 0, index)
}

/// A text.
pub fn text_part(text: u32) -> [u8; 16]
    ensures { result ≡ spec.text_part text }
{
    let mut part = plain(5, 0, 0);
    BigEndian::write_u32(&mut part[4..], text);
    part
}

/// A procedure.
pub fn procedure_part(procedure: u16) -> [u8; 16]
    ensures { result ≡ spec.procedure_part procedure }
{
    plain(6, 0, procedure)
}

/// Some indices.
pub fn indices_part(indices: &[u16]) -> [u8; 16]
    ensures { result ≡ spec.indices_part indices.now }
{
    tuple(7, 0, indices)
}

/// An array.
pub fn array_part(array: u16) -> [u8; 16]
    ensures { result ≡ spec.array_part array }
{
    plain(8, 0, array)
}

/// What an assignment writes.
pub fn target_part(target: &Target) -> [u8; 16]
    ensures { result ≡ spec.target_part target.now }
{
    match target {
        Target::Scalar(scalar) => scalar_part(*scalar),
        Target::Block(block) => block_part(block),
    }
}

/// An operand of a right side.
pub fn operand_part(operand: &Operand) -> [u8; 16]
    ensures { result ≡ spec.operand_part operand.now }
{
    match operand {
        Operand::Number(number) => number_part(*number),
        Operand::Scalar(scalar) => scalar_part(*scalar),
        Operand::Block(block) => block_part(block),
    }
}

/// A value of a condition.
pub fn value_part(value: Value) -> [u8; 16]
    ensures { result ≡ spec.value_part value }
{
    match value {
        Value::Number(number) => number_part(number),
        Value::Scalar(scalar) => scalar_part(scalar),
        Value::Index(index) => index_part(index),
    }
}

/// The first six indices of a pardo.
pub fn first_indices(indices: &[u16]) -> [u8; 16]
    ensures { result ≡ spec.first_indices indices.now }
{
    if indices.len() <= 6 {
        return indices_part(indices);
    }
    indices_part(&indices[..6])
}

/// The other indices of a pardo, where there are any.
pub fn other_indices(indices: &[u16]) -> [u8; 16]
    ensures { result ≡ spec.other_indices indices.now }
{
    if indices.len() <= 6 {
        return no_part();
    }
    indices_part(&indices[6..])
}

// A slot as a place of a tuple.
fn slot_number(slot: Slot) -> u16
    ensures { result ≡ spec.slot_number slot }
{
    match slot {
        Slot::At(index) => index,
        Slot::All => 65534,
    }
}

// A place of a tuple of slots; one that isn't used has all bits set.
fn slot_place(slots: &[Slot], at: usize) -> u16
    ensures { result ≡ slice_index_or (map spec.slot_number slots.now) at 65535 }
{
    match slots.get(at) {
        Some(slot) => slot_number(*slot),
        None => 65535,
    }
}

/// An array with a slot for each dimension.
pub fn slots_part(array: u16, slots: &[Slot]) -> [u8; 16]
    ensures { result ≡ spec.slots_part array slots.now }
{
    let mut part = plain(3, rank(slots.len()), array);
    BigEndian::write_u16(&mut part[4..], slot_place(slots, 0));
    BigEndian::write_u16(&mut part[6..], slot_place(slots, 1));
    BigEndian::write_u16(&mut part[8..], slot_place(slots, 2));
    BigEndian::write_u16(&mut part[10..], slot_place(slots, 3));
    BigEndian::write_u16(&mut part[12..], slot_place(slots, 4));
    BigEndian::write_u16(&mut part[14..], slot_place(slots, 5));
    part
}
