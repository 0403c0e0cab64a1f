//! What is refused, and at which place.

use crate::files::{fault_of, smallest};
use std::test::Fail;
use table_file::TableFault;

#[test]
fn a_file_that_is_cut_is_short(rt: HostRuntime) -> Result<(), Fail> {
    let bytes = smallest(rt.alloc())?;
    for len in 0..bytes.len() {
        let at = len as u64;
        assert_eq!(rt;
            fault_of(rt.alloc(), &bytes[..len]),
            Some(TableFault::Short { at })
        );
    }
    Ok(())
}

#[test]
fn bytes_behind_the_last_list_are_a_rest(rt: HostRuntime) -> Result<(), Fail> {
    let mut bytes = smallest(rt.alloc())?;
    bytes.push(0)?;
    assert_eq!(rt;
        fault_of(rt.alloc(), bytes.as_slice()),
        Some(TableFault::Rest { at: 93 })
    );
    Ok(())
}

#[test]
fn each_fault_of_a_file_has_its_place(rt: HostRuntime) -> Result<(), Fail> {
    for (at, byte, want) in [
        (0, 0, TableFault::Magic),
        (3, 0, TableFault::Magic),
        (5, 0, TableFault::Version),
        (5, 3, TableFault::Version),
        // a later version, for no reason
        (5, 2, TableFault::Field { at: 4 }),
        // the program's name: too long, empty, with a capital letter
        (10, 1, TableFault::Field { at: 10 }),
        (11, 0, TableFault::Field { at: 10 }),
        (11, 65, TableFault::Field { at: 10 }),
        (12, b'P', TableFault::Field { at: 10 }),
        // counts of indices and procedures
        (15, 2, TableFault::TooMany { at: 13 }),
        (25, 1, TableFault::TooMany { at: 25 }),
        (13, 255, TableFault::TooMany { at: 13 }),
        // no such operation, no mode, bytes that nothing uses, no jump
        (33, 0, TableFault::Field { at: 33 }),
        (33, 6, TableFault::Field { at: 33 }),
        (33, 29, TableFault::Field { at: 33 }),
        (34, 1, TableFault::Field { at: 34 }),
        (36, 1, TableFault::Field { at: 36 }),
        (44, 1, TableFault::Field { at: 44 }),
        (45, 1, TableFault::Field { at: 45 }),
        (92, 1, TableFault::Field { at: 92 }),
        // another text is wanted, behind a count of the highest value
        (6, 255, TableFault::Short { at: 93 }),
        (29, 255, TableFault::Short { at: 93 }),
    ] {
        let mut bytes = smallest(rt.alloc())?;
        if let Some(place) = bytes.as_mut_slice().get_mut(at) {
            *place = byte;
        }
        assert_eq!(rt; fault_of(rt.alloc(), bytes.as_slice()), Some(want));
    }
    Ok(())
}
