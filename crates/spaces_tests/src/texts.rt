//! Small programs and inputs, from their texts.

ghost use Rattle.std.specs.Prelude.{IfOk};
ghost use Rattle.sip_input.specs.Given.{IsInput};

use input_text::read_input;
use sial_parser::parse;
use sial_syntax::{Program, Stmt, Text};
use sip_input::{BlockLine, Input, ScalarLine};
use std::alloc::{AllocError, Global};
use std::test::Fail;

// The text of a program with the scalars `x`, `y` and `z`.
fn text(alloc: Global, declared: &[u8], lines: &[u8]) -> Result<Vec<u8>, AllocError> {
    let mut text = Vec::from_slice(alloc, b"sial p\nscalar x\nscalar y\nscalar z\n")?;
    text.extend_from_slice(declared)?;
    text.extend_from_slice(lines)?;
    text.extend_from_slice(b"endsial\n")?;
    Ok(text)
}

// The program that these lines make behind some declarations.
fn parsed(alloc: Global, declared: &[u8], lines: &[u8]) -> Result<Program, Fail> {
    let text = text(alloc, declared, lines)?;
    match parse(alloc, text.as_slice()) {
        Ok(program) => Ok(program),
        Err(_) => Err(Fail::from("it is a program")),
    }
}

/// The program that these lines make behind some declarations, with the scalars `x`, `y`, `z` and another `x`, as no text
/// has it; its statements stand on lines of their own.
pub fn program(
    alloc: Global,
    declared: &[u8],
    lines: &[u8],
    numbers: &[u32],
) -> Result<Program, Fail> {
    let another = Text::from_slice(alloc, b"x")?;
    let mut program = parsed(alloc, declared, lines)?;
    number(program.body.as_mut_slice(), numbers);
    program.scalars.push(another)?;
    Ok(program)
}

// Puts statements on these lines.
fn number(stmts: &mut [Stmt], lines: &[u32]) {
    for (stmt, line) in stmts.iter_mut().zip(lines) {
        stmt.line = *line;
    }
}

// The same with the lines that the text has.
fn given(alloc: Global, lines: &[u8]) -> Result<Input, Fail>
    ensures { IfOk result IsInput }
{
    let mut text = Vec::from_slice(alloc, b"segments mo 4 1\nsubsegment ao 2\n")?;
    text.extend_from_slice(lines)?;
    if text.len() > 1_048_576 {
        return Err(Fail::from("it is not so long"));
    }
    match read_input(alloc, text.as_slice()) {
        Ok(input) => Ok(input),
        Err(_) => Err(Fail::from("it is an input")),
    }
}

/// The input that these lines make, with segments 4 and 1 of mo in no pieces, and those of ao in pieces of 2; its start
/// values of scalars and of blocks stand on lines of their own.
pub fn input(alloc: Global, lines: &[u8], scalars: &[u32], blocks: &[u32]) -> Result<Input, Fail>
    ensures { IfOk result IsInput }
{
    let mut input = given(alloc, lines)?;
    number_scalars(input.scalars.as_mut_slice(), scalars);
    number_blocks(input.blocks.as_mut_slice(), blocks);
    Ok(input)
}

// Puts start values of scalars on these lines.
fn number_scalars(starts: &mut [ScalarLine], lines: &[u32]) {
    for (start, line) in starts.iter_mut().zip(lines) {
        start.line = *line;
    }
}

// Puts start values of blocks on these lines.
fn number_blocks(starts: &mut [BlockLine], lines: &[u32]) {
    for (start, line) in starts.iter_mut().zip(lines) {
        start.line = *line;
    }
}
