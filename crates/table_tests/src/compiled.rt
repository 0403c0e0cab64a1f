//! Texts of programs, compiled and written as files.

use crate::files::{smallest, written};
use crate::small::SMALL;
use crate::worked::{EACH_FORM, SMALL_TEXT, WORKED};
use sial_parser::parse;
use sip_tables::{Operation, Tables};
use std::alloc::Global;
use std::test::Fail;
use table_compiler::compile;
use table_file::decode;

/// The tables of a program's text.
pub fn compiled(alloc: Global, text: &[u8]) -> Result<Tables, Fail> {
    let program = parse(alloc, text).ok().ok_or("it is a program")?;
    Ok(compile(alloc, &program).ok().ok_or("memory is there")?)
}

// Where an instruction leads to, if it is one that may.
fn jump_of(tables: &Tables, at: usize) -> Option<u32> {
    match tables.code().get(at)?.operation {
        Operation::Do { past, .. } => Some(past),
        Operation::If { otherwise, .. } => Some(otherwise),
        Operation::Else { past } => Some(past),
        Operation::Pardo { end, .. } => Some(end),
        Operation::EndDo { head } => Some(head),
        Operation::EndPardo { head } => Some(head),
        Operation::Call { entry, .. } => Some(entry),
        _ => None,
    }
}

#[test]
fn the_smallest_program_and_a_worked_one_have_their_files(rt: HostRuntime) -> Result<(), Fail> {
    let tables = compiled(rt.alloc(), b"sial p\nendsial p\n")?;
    assert_eq!(rt;
        written(rt.alloc(), &tables)?.as_slice(),
        smallest(rt.alloc())?.as_slice()
    );
    let tables = compiled(rt.alloc(), SMALL_TEXT)?;
    assert_eq!(rt; written(rt.alloc(), &tables)?.as_slice(), SMALL.as_slice());
    Ok(())
}

#[test]
fn the_file_of_a_worked_program_is_read_and_written_again(rt: HostRuntime) -> Result<(), Fail> {
    for text in WORKED {
        let bytes = written(rt.alloc(), &compiled(rt.alloc(), text)?)?;
        let tables = decode(rt.alloc(), bytes.as_slice())
            .ok()
            .ok_or("it is a file")?;
        assert_eq!(rt; written(rt.alloc(), &tables)?.as_slice(), bytes.as_slice());
    }
    Ok(())
}

#[test]
fn jumps_and_texts_have_their_numbers(rt: HostRuntime) -> Result<(), Fail> {
    let tables = compiled(rt.alloc(), EACH_FORM)?;
    for (at, jump) in [
        // pardo, where, endpardo
        (0, Some(3)),
        (3, Some(0)),
        // do, enddo
        (4, Some(7)),
        (6, Some(4)),
        // if, else, endif, stop
        (7, Some(10)),
        (9, Some(12)),
        (11, None),
        (12, None),
        // two procedures: the first prints, the second calls it
        (10, Some(15)),
        (15, Some(13)),
    ] {
        assert_eq!(rt; jump_of(&tables, at), jump);
    }
    assert_eq!(rt; tables.code_len(), 17);
    for (at, text) in [
        b"p".as_slice(),
        b"i",
        b"n",
        b"t",
        b"s",
        b"first",
        b"second",
        b"n",
        b"n",
    ]
    .iter()
    .enumerate()
    {
        let known = tables.texts().get(at).ok_or("it has this text")?;
        assert_eq!(rt; known.as_slice(), *text);
    }
    assert_eq!(rt; tables.texts_len(), 9);
    Ok(())
}
