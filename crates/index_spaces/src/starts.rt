//! The fourth round of refusals: start values by line of the input.

ghost use Rattle.std.specs.Prelude.{◌≡◌, ◌&&◌, ◌+◌, ◌-◌, ◌^◌, nat_le, nat_lt, min};
ghost use Rattle.sial_syntax.specs.Spaces as sp;
ghost use Rattle.sial_syntax.specs.Tree.{tree};
ghost use Rattle.index_spaces.specs.Found.{seen_at};
ghost use Rattle.index_spaces.specs.Refusing as spec;

use crate::fault::{Found, Refusal, SpaceKind, sooner};
use crate::names::{array_place, scalar_place};
use crate::spaces::Spaces;
use sial_syntax::{ArrayDecl, ArrayKind, Program, ScalarClass};
use sip_input::{BlockLine, Input, ScalarLine};

/// The first refusal of start values.
pub fn starts_refused<'a>(
    spaces: &Spaces,
    program: &Program,
    classes: &[ScalarClass],
    input: &'a Input,
) -> Option<Found<'a>>
    ensures { seen_at result ≡ spec.starts_refusal (tree program.now) spaces.now.spaces classes.now input.now }
{
    sooner(
        scalars_refused(program, classes, input.scalars.as_slice()),
        blocks_refused(spaces, program, input.blocks.as_slice()),
    )
}

// The first refusal of start values of scalars.
fn scalars_refused<'a>(
    program: &Program,
    classes: &[ScalarClass],
    lines: &'a [ScalarLine],
) -> Option<Found<'a>>
    ensures { seen_at result ≡ spec.soonest (spec.scalar_refusal (tree program.now) classes.now) lines.now }
{
    let mut first = None;
    for line in lines {
        first = sooner(first, scalar_refused(program, classes, line));
    }
    first
}

// The refusal of a scalar's start value.
fn scalar_refused<'a>(
    program: &Program,
    classes: &[ScalarClass],
    line: &'a ScalarLine,
) -> Option<Found<'a>>
    ensures { seen_at result ≡ spec.scalar_refusal (tree program.now) classes.now line.now }
{
    let name = line.name.as_slice();
    let place = scalar_place(program.scalars.as_slice(), name);
    bad_start(means_replicated(classes, place), line.line, name)
}

// Whether a place is that of a replicated scalar.
fn means_replicated(classes: &[ScalarClass], place: Option<usize>) -> bool
    ensures { result ≡ spec.means_replicated classes.now place }
{
    match place {
        Some(scalar) => matches!(classes.get(scalar), Some(ScalarClass::Replicated)),
        None => false,
    }
}

// The refusal at a line of the input whose start values have no place.
fn bad_start(fits: bool, line: u32, name: &[u8]) -> Option<Found<'_>>
    ensures { seen_at result ≡ spec.bad_start fits line name.now }
{
    if fits {
        return None;
    }
    let refusal = Refusal {
        kind: SpaceKind::BadStart,
        name,
        value: line as u64,
    };
    Some(Found { line, refusal })
}

// The first refusal of start values of blocks.
fn blocks_refused<'a>(
    spaces: &Spaces,
    program: &Program,
    lines: &'a [BlockLine],
) -> Option<Found<'a>>
    ensures { seen_at result ≡ spec.soonest (spec.block_refusal (tree program.now) spaces.now.spaces) lines.now }
{
    let mut first = None;
    for line in lines {
        first = sooner(first, block_refused(spaces, program, line));
    }
    first
}

// The refusal of a block's start values.
fn block_refused<'a>(spaces: &Spaces, program: &Program, line: &'a BlockLine) -> Option<Found<'a>>
    ensures { seen_at result ≡ spec.block_refusal (tree program.now) spaces.now.spaces line.now }
{
    let name = line.name.as_slice();
    let place = array_place(program.arrays.as_slice(), name);
    let fits = means_fitting(
        spaces,
        program,
        place,
        line.segments.as_slice(),
        line.elements.as_slice(),
    );
    bad_start(fits, line.line, name)
}

// Whether a place is that of an array that has such a block.
fn means_fitting(
    spaces: &Spaces,
    program: &Program,
    place: Option<usize>,
    segments: &[u32],
    elements: &[u64],
) -> bool
    ensures { result ≡ spec.means_fitting (tree program.now) spaces.now.spaces place segments.now elements.now }
{
    match place {
        Some(place) => match program.arrays.get(place) {
            Some(array) => spaces.fits_array(array, segments, elements),
            None => false,
        },
        None => false,
    }
}

// Whether an input may give blocks of an array of this kind.
fn may_be_given(kind: ArrayKind) -> bool
    ensures { result ≡ spec.may_be_given kind }
{
    matches!(kind, ArrayKind::Static | ArrayKind::Served)
}

impl Spaces {
    // Whether an array has a block of these segments with so many elements, which an input may give.
    fn fits_array(&self, array: &ArrayDecl, segments: &[u32], elements: &[u64]) -> bool
        ensures { result ≡ spec.fits_array self.now.spaces array.now segments.now elements.now }
    {
        let dims = array.dims.as_slice();
        may_be_given(array.kind)
            && self.are_segments(dims, segments)
            && elements.len() as u64 == self.words_at(dims, segments)
    }

    // Whether these are segment numbers of some indices, one each.
    fn are_segments(&self, indices: &[u16], numbers: &[u32]) -> bool
        ensures { result ≡ spec.are_segments self.now.spaces indices.now numbers.now }
    {
        match indices {
            [] => numbers.is_empty(),
            [index, indices @ ..] => match numbers {
                [] => false,
                [number, numbers @ ..] => {
                    self.is_segment(*index, *number) && self.are_segments(indices, numbers)
                }
            },
        }
    }

    // Whether a number is that of one of an index's segments.
    fn is_segment(&self, index: u16, number: u32) -> bool
        ensures { result ≡ spec.is_segment self.now.spaces index number }
    {
        let (first, count) = self.range(index);
        first <= number && number < first + count
    }

    // How many words the block of these segments has, as far as a `u64` goes.
    #[tactic(auto, using(crate::proofs::BoundLemmas::min_product))]
    fn words_at(&self, indices: &[u16], numbers: &[u32]) -> u64
        ensures { result ≡ min (sp.words_in self.now.spaces indices.now numbers.now) (2 ^ 64 - 1) }
    {
        match indices {
            [] => 1,
            [index, indices @ ..] => match numbers {
                [] => 1,
                [number, numbers @ ..] => {
                    let len = self.len_of(self.kind(*index), *number);
                    (len as u64).saturating_mul(self.words_at(indices, numbers))
                }
            },
        }
    }
}
