//! Tables that are taken for a program again, or for none.

use crate::compiled::compiled;
use crate::files::written;
use crate::small::SMALL;
use crate::worked::{EACH_FORM, SMALL_TEXT, WORKED};
use sip_tables::Tables;
use std::alloc::Global;
use std::test::Fail;
use table_compiler::compile;
use table_file::decode;
use table_verify::unflatten;

// The file of the program whose tables these are.
fn written_again(alloc: Global, tables: &Tables) -> Result<Vec<u8>, Fail> {
    let program = unflatten(alloc, tables)
        .ok()
        .ok_or("a program has these tables")?;
    let again = compile(alloc, &program).ok().ok_or("memory is there")?;
    written(alloc, &again)
}

#[test]
fn the_tables_of_worked_programs_give_them(rt: HostRuntime) -> Result<(), Fail> {
    for text in WORKED.iter().copied().chain([SMALL_TEXT, EACH_FORM]) {
        let tables = compiled(rt.alloc(), text)?;
        assert_eq!(rt;
            written_again(rt.alloc(), &tables)?.as_slice(),
            written(rt.alloc(), &tables)?.as_slice()
        );
    }
    Ok(())
}

#[test]
fn each_byte_set_to_255_is_refused_or_a_programs(rt: HostRuntime) -> Result<(), Fail> {
    let mut programs = false;
    let mut others = false;
    for at in 0..SMALL.len() {
        let mut bytes = Vec::from_slice(rt.alloc(), SMALL.as_slice())?;
        bytes[at] = 255;
        if let Ok(tables) = decode(rt.alloc(), bytes.as_slice()) {
            if unflatten(rt.alloc(), &tables).is_ok() {
                programs = true;
                let again = written_again(rt.alloc(), &tables)?;
                assert_eq!(rt; again.as_slice(), bytes.as_slice());
            } else {
                others = true;
            }
        }
    }
    assert!(rt; programs && others);
    Ok(())
}
