//! Start values, each at its place.

ghost use Rattle.std.specs.Prelude.{◌≡◌, ◌≤◌, ◌^◌, ◌++◌, None, length, map, IfOk};
ghost use Rattle.sial_syntax.specs.Tree.{tree};
ghost use Rattle.index_spaces.specs.Given as spec;
ghost use Rattle.index_spaces.specs.Placed.{bare};
ghost use Rattle.index_spaces.specs.Refusing.{block_refusal, soonest};
ghost use Rattle.index_spaces.specs.Starting.{given_of};

use crate::names::{array_place, scalar_place};
use crate::spaces::Spaces;
use sial_syntax::{Program, Text};
use sip_input::{BlockLine, ScalarLine};
use std::alloc::{AllocError, Global};

/// The elements with which a block begins: its array, its number within the array, and they.
#[derive(Drop)]
pub struct StartBlock {
    pub array: u16,
    pub number: u32,
    pub words: Vec<u64>,
}

/// The number with which each scalar begins, and the blocks that begin with other elements than zeros.
#[derive(Drop)]
pub struct Start {
    pub scalars: Vec<u64>,
    pub blocks: Vec<StartBlock>,
}

/// The numbers with which scalars begin.
pub fn numbers(
    alloc: Global,
    scalars: &[Text],
    lines: &[ScalarLine],
) -> Result<Vec<u64>, AllocError>
    ensures { IfOk result (λ numbers. numbers.items ≡ spec.numbers_among scalars.now lines.now) }
{
    let mut numbers = Vec::with_capacity(alloc, scalars.len())?;
    for (place, _) in scalars.iter().enumerate() {
        numbers.push(number(scalars, lines, place))?;
    }
    Ok(numbers)
}

// The number with which a scalar begins.
fn number(scalars: &[Text], lines: &[ScalarLine], scalar: usize) -> u64
    ensures { result ≡ spec.number_given scalars.now lines.now scalar }
{
    for line in lines {
        if is_this(scalar_place(scalars, line.name.as_slice()), scalar) {
            return line.value;
        }
    }
    0
}

// Whether a place is this one.
fn is_this(place: Option<usize>, scalar: usize) -> bool
    ensures { result ≡ spec.is_this place scalar }
{
    match place {
        Some(place) => place == scalar,
        None => false,
    }
}

/// The blocks that an input gives.
pub fn blocks(
    alloc: Global,
    spaces: &Spaces,
    program: &Program,
    lines: &[BlockLine],
) -> Result<Vec<StartBlock>, AllocError>
    requires few { length (tree program.now).arrays ≤ 2 ^ 16 }
    requires arrays { spaces.now.arrays ≡ map bare (tree program.now).arrays }
    requires fit { soonest (block_refusal (tree program.now) spaces.now.spaces) lines.now ≡ None }
    ensures { IfOk result (λ blocks. map given_of blocks.items ≡ map (spec.block_given (tree program.now) spaces.now.spaces) lines.now) }
{
    let mut blocks = Vec::with_capacity(alloc, lines.len())?;
    for line in lines {
        blocks.push(block(alloc, spaces, program, line)?)?;
    }
    Ok(blocks)
}

// The block that a line gives.
fn block(
    alloc: Global,
    spaces: &Spaces,
    program: &Program,
    line: &BlockLine,
) -> Result<StartBlock, AllocError>
    requires few { length (tree program.now).arrays ≤ 2 ^ 16 }
    requires arrays { spaces.now.arrays ≡ map bare (tree program.now).arrays }
    requires fits { block_refusal (tree program.now) spaces.now.spaces line.now ≡ None }
    ensures { IfOk result (λ block. given_of block ≡ spec.block_given (tree program.now) spaces.now.spaces line.now) }
{
    let place = array_place(program.arrays.as_slice(), line.name.as_slice());
    let array = place.unwrap_or(0) as u16;
    let number = spaces.block_number(array, line.segments.as_slice());
    let words = Vec::from_slice(alloc, line.elements.as_slice())?;
    Ok(StartBlock {
        array,
        number,
        words,
    })
}
