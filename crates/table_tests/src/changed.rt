//! Tables of a program with each form, with some bytes of their file set to others.

use crate::compiled::compiled;
use crate::files::written;
use crate::worked::EACH_FORM;
use sip_tables::Tables;
use std::alloc::Global;
use std::test::Fail;
use table_file::decode;

/// How many bytes an instruction has in a file.
const INSTRUCTION: usize = 60;

/// The tables with bytes of instructions set, each by its instruction and place, and others by how far they stand before the code.
pub fn changed(
    alloc: Global,
    inside: &[(usize, usize, u8)],
    before: &[(usize, u8)],
) -> Result<Tables, Fail> {
    let tables = compiled(alloc, EACH_FORM)?;
    let mut bytes = written(alloc, &tables)?;
    let code = bytes
        .len()
        .saturating_sub(INSTRUCTION.saturating_mul(tables.code_len()));
    for (far, number) in before {
        if let Some(byte) = bytes.as_mut_slice().get_mut(code.saturating_sub(*far)) {
            *byte = *number;
        }
    }
    for (instruction, place, number) in inside {
        let within = INSTRUCTION
            .saturating_mul(*instruction)
            .saturating_add(*place);
        if let Some(byte) = bytes.as_mut_slice().get_mut(code.saturating_add(within)) {
            *byte = *number;
        }
    }
    Ok(decode(alloc, bytes.as_slice()).ok().ok_or("it is a file")?)
}
