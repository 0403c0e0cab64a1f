//! Whether indices lie within the declared ones where a statement names them.

ghost use Rattle.std.specs.Prelude.{◌≡◌, ◌∷◌, ◌++◌, []};
ghost use Rattle.sial_syntax.specs.Agreeing.{array_in};
ghost use Rattle.sial_syntax.specs.Parts.{operand_block, target_block};
ghost use Rattle.sial_syntax.specs.Resolved as resolved;
ghost use Rattle.sial_syntax.specs.Tree.{plain_form, tree};
ghost use Rattle.index_spaces.specs.Refusing as spec;
ghost use Rattle.index_spaces.specs.Walk.{right_blocks};

use crate::spaces::Spaces;
use crate::span::Span;
use sial_syntax::{BlockRef, Form, Operand, Program, Right, Slot, Target};

impl Spaces {
    // The index itself, or the one whose segments it cuts.
    fn whole_index(&self, index: u16) -> u16
        ensures { result ≡ resolved.whole_index self.now.spaces index }
    {
        match self.span(index) {
            Span::Segments { .. } => index,
            Span::Pieces { super_index } => super_index,
        }
    }

    // Whether an index's range lies within a declared one's.
    fn range_within(&self, used: u16, declared: u16) -> bool
        ensures { result ≡ resolved.range_within self.now.spaces used declared }
    {
        let (first, count) = self.range(self.whole_index(used));
        let (within, many) = self.range(self.whole_index(declared));
        lies_in(first, count, within, many)
    }

    // The first index that doesn't lie within the declared one.
    fn first_outside(&self, used: &[u16], declared: &[u16]) -> Option<u16>
        ensures { result ≡ spec.first_outside self.now.spaces used.now declared.now }
    {
        match used {
            [] => None,
            [index, used @ ..] => match declared {
                [] => None,
                [dim, _declared @ ..] if !self.range_within(*index, *dim) => Some(*index),
                [_, declared @ ..] => self.first_outside(used, declared),
            },
        }
    }

    // The first slot's index that doesn't lie within the declared one.
    fn slots_outside(&self, at: &[Slot], declared: &[u16]) -> Option<u16>
        ensures { result ≡ spec.slots_outside self.now.spaces at.now declared.now }
    {
        match at {
            [] => None,
            [slot, at @ ..] => match declared {
                [] => None,
                [dim, declared @ ..] => match slot {
                    Slot::At(index) if !self.range_within(*index, *dim) => Some(*index),
                    _ => self.slots_outside(at, declared),
                },
            },
        }
    }
}

// Whether a row of segments lies within another.
fn lies_in(first: u32, count: u32, within: u32, many: u32) -> bool
    ensures { result ≡ resolved.lies_in first count within many }
{
    count == 0 || (within <= first && first as u64 + count as u64 <= within as u64 + many as u64)
}

// The declared indices of an array.
fn dims(program: &Program, array: u16) -> &[u16]
    ensures { result.now ≡ (array_in (tree program.now) array).dims }
{
    match program.arrays.get(array as usize) {
        Some(array) => array.dims.as_slice(),
        None => &[],
    }
}

// The first index of a block that doesn't lie within the declared one.
fn block_outside(spaces: &Spaces, program: &Program, block: &BlockRef) -> Option<u16>
    ensures { result ≡ spec.blocks_outside (tree program.now) spaces.now.spaces (block.now ∷ []) }
{
    spaces.first_outside(block.at.as_slice(), dims(program, block.array))
}

// The same of the block that an operand is.
fn operand_outside(spaces: &Spaces, program: &Program, operand: &Operand) -> Option<u16>
    ensures { result ≡ spec.blocks_outside (tree program.now) spaces.now.spaces (operand_block operand.now) }
{
    match operand {
        Operand::Block(block) => block_outside(spaces, program, block),
        _ => None,
    }
}

// The same of the blocks of a right side.
#[tactic(auto, using(crate::proofs::WithinLemmas::outside_append))]
fn right_outside(spaces: &Spaces, program: &Program, right: &Right) -> Option<u16>
    ensures { result ≡ spec.blocks_outside (tree program.now) spaces.now.spaces (right_blocks right.now) }
{
    match right {
        Right::One(operand) => operand_outside(spaces, program, operand),
        Right::Two(left, _, right) => match operand_outside(spaces, program, left) {
            Some(index) => Some(index),
            None => operand_outside(spaces, program, right),
        },
    }
}

// The same of the block that a target is.
fn target_outside(spaces: &Spaces, program: &Program, target: &Target) -> Option<u16>
    ensures { result ≡ spec.blocks_outside (tree program.now) spaces.now.spaces (target_block target.now) }
{
    match target {
        Target::Block(block) => block_outside(spaces, program, block),
        Target::Scalar(_) => None,
    }
}

// The same of an assignment.
#[tactic(auto, using(crate::proofs::WithinLemmas::outside_append))]
fn assignment_outside(
    spaces: &Spaces,
    program: &Program,
    target: &Target,
    right: &Right,
) -> Option<u16>
    ensures { result ≡ spec.blocks_outside (tree program.now) spaces.now.spaces (target_block target.now ++ right_blocks right.now) }
{
    match target_outside(spaces, program, target) {
        Some(index) => Some(index),
        None => right_outside(spaces, program, right),
    }
}

// The same of two blocks.
fn two_outside(spaces: &Spaces, program: &Program, block: &BlockRef, from: &BlockRef) -> Option<u16>
    ensures { result ≡ spec.blocks_outside (tree program.now) spaces.now.spaces (block.now ∷ from.now ∷ []) }
{
    match block_outside(spaces, program, block) {
        Some(index) => Some(index),
        None => block_outside(spaces, program, from),
    }
}

/// The first index of a statement that doesn't lie within the declared one.
pub fn statement_outside(spaces: &Spaces, program: &Program, form: &Form) -> Option<u16>
    ensures { result ≡ spec.statement_outside (tree program.now) spaces.now.spaces (plain_form form.now) }
{
    match form {
        Form::Assign { target, right, .. } => assignment_outside(spaces, program, target, right),
        Form::Get { block } | Form::Request { block } | Form::Integrals { block } => {
            block_outside(spaces, program, block)
        }
        Form::Put { block, from, .. } | Form::Prepare { block, from, .. } => {
            two_outside(spaces, program, block, from)
        }
        Form::Allocate { array, at } | Form::Deallocate { array, at } => {
            spaces.slots_outside(at.as_slice(), dims(program, *array))
        }
        _ => None,
    }
}
