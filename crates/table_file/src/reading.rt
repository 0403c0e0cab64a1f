//! Reading a file.

ghost use Rattle.std.specs.Prelude.{◌≡◌, IfOk, Ok};
ghost use Rattle.sip_tables.specs.Lists.{Lists};
ghost use Rattle.table_file.specs.Fields.{Gives, behind, entries as spec_entries};
ghost use Rattle.table_file.specs.Fits.{IsFileOf};
ghost use Rattle.table_file.specs.Reading as spec;

use crate::entries::program_name;
use crate::fault::TableFault;
use crate::fields::{byte, field, number_2, number_4, taken};
use crate::instructions::instruction;
use crate::listed::Listed;
use crate::opcode::{Opcode, begins_statement, opcode_of};
use crate::version::version;
use sial_syntax::Text;
use sip_tables::{ArrayEntry, IndexEntry, Instruction, ProcedureEntry, Tables};
use std::alloc::Global;

const MOST_NAMES: u32 = 256;

const MOST_STATEMENTS: u32 = 65535;

/// The tables whose file these bytes are, or the first fault in reading order, in time and memory linear in their length.
#[tactic(auto, using(crate::proofs::FileLaws::found_from, crate::proofs::FileLaws::only_from))]
pub fn decode(alloc: Global, bytes: &[u8]) -> Result<Tables, TableFault>
    // What is given are tables whose file the bytes are, and they are given wherever the bytes are a file and memory is found.
    ensures found { IfOk result (λ t. IsFileOf bytes.now t) }
    ensures only { (t : Lists) → IsFileOf bytes.now t → Gives (λ t. t) result (Ok t) }

    // Else the answer is the first fault of a reading field by field, from the front.
    ensures exact { Gives (λ t. t) result (spec.decode_of bytes.now) }
{
    read(alloc, bytes)
}

// The whole file: nothing stands behind its lists, and its version is that of its code.
#[tactic(auto, unfolding(crate::specs::Reading::decode_of))]
fn read(alloc: Global, bytes: &[u8]) -> Result<Tables, TableFault>
    ensures exact { Gives (λ t. t) result (spec.decode_of bytes.now) }
{
    let (said, next) = file_head(alloc, bytes)?;
    let (tables, next) = lists(alloc, said, bytes, next)?;
    if next < bytes.len() {
        return Err(TableFault::Rest { at: next as u64 });
    }
    if version(tables.code()) == said {
        return Ok(tables);
    }
    Err(TableFault::Field { at: 4 })
}

// The mark and the version.
#[tactic(auto, unfolding(crate::specs::Reading::file_head))]
fn file_head(alloc: Global, bytes: &[u8]) -> Result<(u16, usize), TableFault>
    ensures { Gives (λ x. x) result (spec.file_head bytes.now) }
{
    let (mark, next) = taken(alloc, 4, bytes, 0)?;
    if mark.as_slice() != b"SIPT".as_slice() {
        return Err(TableFault::Magic);
    }
    let (version, next) = number_2(bytes, next)?;
    if 1 <= version && version <= 2 {
        return Ok((version, next));
    }
    Err(TableFault::Version)
}

// The six lists.
#[tactic(auto, unfolding(crate::specs::Reading::lists))]
fn lists(
    alloc: Global,
    version: u16,
    bytes: &[u8],
    at: usize,
) -> Result<(Tables, usize), TableFault>
    ensures { Gives (λ x. x) result (spec.lists version bytes.now at) }
{
    let (texts, next) = texts(alloc, bytes, at)?;
    let (indices, next) = short_list::<IndexEntry>(alloc, texts.as_slice(), bytes, next)?;
    let (arrays, next) = short_list::<ArrayEntry>(alloc, texts.as_slice(), bytes, next)?;
    let (scalars, next) = short_list::<u32>(alloc, texts.as_slice(), bytes, next)?;
    let (procedures, next) = short_list::<ProcedureEntry>(alloc, texts.as_slice(), bytes, next)?;
    let (code, next) = code_list(alloc, version, texts.as_slice(), bytes, next)?;
    Ok((
        Tables::new(texts, indices, arrays, scalars, procedures, code),
        next,
    ))
}

// The texts, with their count before them.
#[tactic(auto, unfolding(crate::specs::Reading::texts))]
fn texts(alloc: Global, bytes: &[u8], at: usize) -> Result<(Vec<Text>, usize), TableFault>
    ensures { Gives (λ x. (x.0.items, x.1)) result (spec.texts bytes.now at) }
{
    let (count, next) = number_4(bytes, at)?;
    some_texts(alloc, count, bytes, next)
}

// So many texts, the first of which is the program's name.
#[tactic(auto, unfolding(crate::specs::Reading::some_texts))]
fn some_texts(
    alloc: Global,
    count: u32,
    bytes: &[u8],
    at: usize,
) -> Result<(Vec<Text>, usize), TableFault>
    ensures { Gives (λ x. (x.0.items, x.1)) result (spec.some_texts count bytes.now at) }
{
    let mut front = Vec::new(alloc);
    if count == 0 {
        return Ok((front, at));
    }
    let (name, next) = program_name(alloc, bytes, at)?;
    front.push(name)?;
    entries(alloc, &[], front, count - 1, bytes, next)
}

// A list of at most 256 entries, with its count before it.
#[tactic(auto, unfolding(crate::specs::Reading::short_list))]
fn short_list<T: Listed>(
    alloc: Global,
    texts: &[Text],
    bytes: &[u8],
    at: usize,
) -> Result<(Vec<T>, usize), TableFault>
    ensures { Gives (λ x. (x.0.items, x.1)) result (spec.short_list (T.reading texts.now) bytes.now at) }
{
    let (count, next) = number_4(bytes, at)?;
    if count <= MOST_NAMES {
        return entries(alloc, texts, Vec::new(alloc), count, bytes, next);
    }
    Err(TableFault::TooMany { at: at as u64 })
}

// So many entries, behind those that were read before.
fn entries<T: Listed>(
    alloc: Global,
    texts: &[Text],
    front: Vec<T>,
    count: u32,
    bytes: &[u8],
    at: usize,
) -> Result<(Vec<T>, usize), TableFault>
    ensures { Gives (λ x. (x.0.items, x.1)) result (behind front.items (spec_entries (T.reading texts.now) count bytes.now at)) }
{
    let mut read = front;
    let mut next = at;
    for _ in 0..count {
        let (entry, after) = T::read(alloc, texts, bytes, next)?;
        read.push(entry)?;
        next = after;
    }
    Ok((read, next))
}

// The code, with its count before it.
#[tactic(auto, unfolding(crate::specs::Reading::code_list))]
fn code_list(
    alloc: Global,
    version: u16,
    texts: &[Text],
    bytes: &[u8],
    at: usize,
) -> Result<(Vec<Instruction>, usize), TableFault>
    ensures { Gives (λ x. (x.0.items, x.1)) result (spec.code_list version texts.now bytes.now at) }
{
    let (count, next) = number_4(bytes, at)?;
    instructions(alloc, version, texts, count, bytes, next)
}

// So many instructions.
fn instructions(
    alloc: Global,
    version: u16,
    texts: &[Text],
    count: u32,
    bytes: &[u8],
    at: usize,
) -> Result<(Vec<Instruction>, usize), TableFault>
    ensures { Gives (λ x. (x.0.items, x.1)) result (spec.instructions version texts.now 0 count bytes.now at) }
{
    let mut code = Vec::new(alloc);
    let mut statements = 0u32;
    let mut next = at;
    for _ in 0..count {
        let (opcode, behind) = operation(bytes, next)?;
        let more = counted(statements, opcode, next)?;
        let (read, after) = instruction(alloc, version, texts, opcode, bytes, behind)?;
        code.push(read)?;
        statements = more;
        next = after;
    }
    Ok((code, next))
}

// The operation of an instruction.
#[tactic(auto, unfolding(crate::specs::Reading::operation))]
fn operation(bytes: &[u8], at: usize) -> Result<(Opcode, usize), TableFault>
    ensures { Gives (λ x. x) result (spec.operation bytes.now at) }
{
    let (number, next) = byte(bytes, at)?;
    match opcode_of(number) {
        Some(opcode) => Ok((opcode, next)),
        None => Err(field(at)),
    }
}

// The count of statements behind an operation at this place.
fn counted(statements: u32, opcode: Opcode, at: usize) -> Result<u32, TableFault>
    ensures { Gives (λ x. x) result (spec.counted statements opcode at) }
{
    if !begins_statement(opcode) {
        return Ok(statements);
    }
    if statements < MOST_STATEMENTS {
        return Ok(statements + 1);
    }
    Err(TableFault::TooMany { at: at as u64 })
}
