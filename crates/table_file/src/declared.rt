//! Entries of indices, arrays and procedures as bytes.

ghost use Rattle.std.specs.Prelude.{◌≡◌, ◌++◌};
ghost use Rattle.table_file.specs.Bytes as spec;

use crate::numbers::{array_number, kind_number};
use crate::parts::{place, rank};
use byteorder::{BigEndian, ByteOrder};
use sip_tables::{ArrayEntry, BoundEntry, IndexEntry, ProcedureEntry, RangeEntry};

/// The bytes of one number.
pub fn word_bytes(number: u32) -> [u8; 4]
    ensures { result ≡ spec.word number }
{
    let mut bytes = [0u8; 4];
    BigEndian::write_u32(bytes.as_mut_slice(), number);
    bytes
}

// A bound's tag and its number.
fn bound_of(bound: BoundEntry) -> (u8, u64)
    ensures { spec.byte result.0 ++ spec.long result.1 ≡ spec.bound_bytes bound }
{
    match bound {
        BoundEntry::Number(number) => (0, number),
        BoundEntry::Named(text) => (1, text),
    }
}

// An index, by the number of what it counts and its two bounds.
fn index_of(kind: u8, text: u32, line: u32, lo: (u8, u64), hi: (u8, u64)) -> [u8; 27]
    ensures { result ≡ spec.byte kind ++ (spec.word text ++ (spec.word line ++ ((spec.byte lo.0 ++ spec.long lo.1) ++ (spec.byte hi.0 ++ spec.long hi.1)))) }
{
    let mut bytes = [0u8; 27];
    bytes[0] = kind;
    BigEndian::write_u32(&mut bytes[1..], text);
    BigEndian::write_u32(&mut bytes[5..], line);
    bytes[9] = lo.0;
    BigEndian::write_u64(&mut bytes[10..], lo.1);
    bytes[18] = hi.0;
    BigEndian::write_u64(&mut bytes[19..], hi.1);
    bytes
}

/// An index.
pub fn index_bytes(index: &IndexEntry) -> [u8; 27]
    ensures { result ≡ spec.index_bytes index.now }
{
    match index.range {
        RangeEntry::Segments { kind, lo, hi } => index_of(
            kind_number(kind),
            index.text,
            index.line,
            bound_of(lo),
            bound_of(hi),
        ),
        RangeEntry::Sub { super_index } => {
            index_of(6, index.text, index.line, (2, super_index), (2, 0))
        }
    }
}

/// An array.
pub fn array_bytes(array: &ArrayEntry) -> [u8; 22]
    ensures { result ≡ spec.array_bytes array.now }
{
    let dims = array.dims.as_slice();
    let mut bytes = [0u8; 22];
    bytes[0] = array_number(array.kind);
    BigEndian::write_u32(&mut bytes[1..], array.text);
    BigEndian::write_u32(&mut bytes[5..], array.line);
    bytes[9] = rank(dims.len());
    BigEndian::write_u16(&mut bytes[10..], place(dims, 0));
    BigEndian::write_u16(&mut bytes[12..], place(dims, 1));
    BigEndian::write_u16(&mut bytes[14..], place(dims, 2));
    BigEndian::write_u16(&mut bytes[16..], place(dims, 3));
    BigEndian::write_u16(&mut bytes[18..], place(dims, 4));
    BigEndian::write_u16(&mut bytes[20..], place(dims, 5));
    bytes
}

/// A procedure.
pub fn procedure_bytes(procedure: &ProcedureEntry) -> [u8; 8]
    ensures { result ≡ spec.procedure_bytes procedure.now }
{
    let mut bytes = [0u8; 8];
    BigEndian::write_u32(bytes.as_mut_slice(), procedure.text);
    BigEndian::write_u32(&mut bytes[4..], procedure.entry);
    bytes
}
