//! Files that are read and written again.

use crate::small::SMALL;
use sip_files::MemorySink;
use sip_tables::Tables;
use std::alloc::Global;
use std::test::Fail;
use table_file::{TableFault, decode, encode};

/// What stands before the stop's operands in the file of a program without declarations and statements.
pub const HEAD: [u8; 45] = [
    83, 73, 80, 84, 0, 1, 0, 0, 0, 1, 0, 1, 112, 0, 0, 0, 0, 0, 0, 0, 0, 0, 0, 0, 0, 0, 0, 0, 0, 0,
    0, 0, 1, 1, 0, 0, 0, 0, 0, 0, 0, 0, 0, 0, 0,
];

/// The whole file: 48 bytes of zero follow.
pub fn smallest(alloc: Global) -> Result<Vec<u8>, Fail> {
    let mut bytes = Vec::from_slice(alloc, HEAD.as_slice())?;
    bytes.extend_from_slice([0u8; 48].as_slice())?;
    Ok(bytes)
}

/// The fault of bytes that are no file.
pub fn fault_of(alloc: Global, bytes: &[u8]) -> Option<TableFault> {
    match decode(alloc, bytes) {
        Ok(_) => None,
        Err(fault) => Some(fault),
    }
}

/// The file of some tables.
pub fn written(alloc: Global, tables: &Tables) -> Result<Vec<u8>, Fail> {
    let mut sink = MemorySink::new(alloc);
    encode(tables, &mut sink)
        .ok()
        .ok_or("a sink in memory takes all")?;
    Ok(Vec::from_slice(alloc, sink.bytes())?)
}

#[test]
fn a_program_without_statements_has_93_bytes(rt: HostRuntime) -> Result<(), Fail> {
    let bytes = smallest(rt.alloc())?;
    let tables = decode(rt.alloc(), bytes.as_slice())
        .ok()
        .ok_or("it is a file")?;
    assert_eq!(rt; tables.texts_len(), 1);
    assert_eq!(rt; tables.text(0).as_slice(), b"p".as_slice());
    assert_eq!(rt; tables.indices_len(), 0);
    assert_eq!(rt; tables.arrays_len(), 0);
    assert_eq!(rt; tables.scalars_len(), 0);
    assert_eq!(rt; tables.procedures_len(), 0);
    assert_eq!(rt; tables.code_len(), 1);
    assert_eq!(rt; written(rt.alloc(), &tables)?.as_slice(), bytes.as_slice());
    Ok(())
}

#[test]
fn a_worked_program_is_read_and_written_again(rt: HostRuntime) -> Result<(), Fail> {
    let tables = decode(rt.alloc(), SMALL.as_slice())
        .ok()
        .ok_or("it is a file")?;
    assert_eq!(rt; tables.texts_len(), 14);
    assert_eq!(rt; tables.indices_len(), 3);
    assert_eq!(rt; tables.arrays_len(), 7);
    assert_eq!(rt; tables.scalars_len(), 3);
    assert_eq!(rt; tables.code_len(), 29);
    assert_eq!(rt; written(rt.alloc(), &tables)?.as_slice(), SMALL.as_slice());
    Ok(())
}

#[test]
fn each_byte_set_to_255_is_refused_or_written_again(rt: HostRuntime) -> Result<(), Fail> {
    let mut accepted = false;
    for at in 0..SMALL.len() {
        let mut bytes = Vec::from_slice(rt.alloc(), SMALL.as_slice())?;
        bytes[at] = 255;
        if let Ok(tables) = decode(rt.alloc(), bytes.as_slice()) {
            accepted = true;
            assert_eq!(rt; written(rt.alloc(), &tables)?.as_slice(), bytes.as_slice());
        }
    }
    assert!(rt; accepted);
    Ok(())
}
