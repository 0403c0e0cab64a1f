//! The blocks that slots match.

ghost use Rattle.std.specs.Prelude.{◌≡◌, ◌<◌, ◌≤◌, ◌^◌, Some, length, slice_get};
ghost use Rattle.index_spaces.specs.Placed.{array_among};
ghost use Rattle.sial_syntax.specs.Boxes.{place_of, volume};
ghost use Rattle.sial_syntax.specs.Spaces as sp;
ghost use Rattle.sial_meaning.specs.LocalStep.{matched};
ghost use Rattle.sial_meaning.specs.Own.{Own};
ghost use Rattle.sial_meaning.specs.Setting.{Setting};
ghost use Rattle.exec_names.specs.Matching as spec;
ghost use Rattle.exec_names.specs.Matching.{AreOf, AreSlots, MatchBlocks};

use crate::naming::value_of;
use index_spaces::Spaces;
use sial_syntax::Slot;

/// How many blocks of an array slots match.
#[tactic(auto, using(crate::proofs::MatchLemmas::matched_long))]
pub fn matched_count(spaces: &Spaces, values: &[u32], array: u16, slots: &[Slot]) -> u32
    requires fits { MatchBlocks spaces.now values.now array slots.now }
    ensures count { result ≡ spec.matches spaces.now.spaces (array_among spaces.now.arrays array).dims slots.now }
    ensures value { (g : Setting) (own : Own) → AreOf g own spaces.now values.now → result ≡ length (matched g own array slots.now) }
{
    let _places = spaces.blocks_of(array);
    matches(spaces, values, spaces.dims(array), slots)
}

/// The number, within its array, of one of the blocks that slots match, in the order of the blocks.
#[tactic(auto, using(crate::proofs::MatchLemmas::matched_at))]
pub fn matched_number(spaces: &Spaces, values: &[u32], array: u16, slots: &[Slot], turn: u32) -> u32
    requires fits { MatchBlocks spaces.now values.now array slots.now }
    requires turn { turn < spec.matches spaces.now.spaces (array_among spaces.now.arrays array).dims slots.now }
    ensures value { (g : Setting) (own : Own) → AreOf g own spaces.now values.now → slice_get (matched g own array slots.now) turn ≡ Some result }
    ensures within { result < sp.blocks_of spaces.now.spaces (array_among spaces.now.arrays array) }
{
    let counts = Counts {
        places: spaces.blocks_of(array),
        matches: matched_count(spaces, values, array, slots),
    };
    place_in_turn(spaces, values, spaces.dims(array), slots, turn, counts)
}

// How many places the box of some dimensions has, and how many of them slots match.
#[derive(Clone, Copy)]
struct Counts {
    places: u32,
    matches: u32,
}

// How many blocks the slots of some dimensions match.
fn matches(spaces: &Spaces, values: &[u32], dims: &[u16], slots: &[Slot]) -> u32
    requires slots { AreSlots spaces.now.spaces values.now dims.now slots.now }
    requires few { volume (sp.box_of spaces.now.spaces dims.now) < 2 ^ 32 }
    ensures value { result ≡ spec.matches spaces.now.spaces dims.now slots.now }
    ensures few { result ≤ volume (sp.box_of spaces.now.spaces dims.now) }
{
    match dims {
        [] => 1,
        [dim, dims @ ..] => match slots {
            [] => 0,
            [slot, slots @ ..] => match slot_count(spaces, *dim, *slot) {
                0 => 0,
                count => count * matches(spaces, values, dims, slots),
            },
        },
    }
}

// How many segments of a dimension a slot matches.
fn slot_count(spaces: &Spaces, dim: u16, slot: Slot) -> u32
    ensures { result ≡ spec.slot_count spaces.now.spaces dim slot }
{
    match slot {
        Slot::At(_) => 1,
        Slot::All => spaces.range(dim).1,
    }
}

// The first segment of a dimension that a slot matches, counted from the first of the dimension.
fn slot_first(spaces: &Spaces, values: &[u32], dim: u16, slot: Slot) -> u32
    ensures { result ≡ spec.slot_first spaces.now.spaces values.now dim slot }
{
    match slot {
        Slot::At(index) => value_of(values, index).saturating_sub(spaces.range(dim).0),
        Slot::All => 0,
    }
}

// The place in the box of some dimensions of a matched block in its turn.
fn place_in_turn(
    spaces: &Spaces,
    values: &[u32],
    dims: &[u16],
    slots: &[Slot],
    turn: u32,
    counts: Counts,
) -> u32
    requires slots { AreSlots spaces.now.spaces values.now dims.now slots.now }
    requires turn { turn < counts.matches }
    requires places { counts.places ≡ volume (sp.box_of spaces.now.spaces dims.now) }
    requires matches { counts.matches ≡ spec.matches spaces.now.spaces dims.now slots.now }
    ensures value { result ≡ place_of (sp.box_of spaces.now.spaces dims.now) (spec.tuple_in_turn spaces.now.spaces values.now dims.now slots.now turn) }
    ensures within { result < counts.places }
{
    match dims {
        [] => 0,
        [dim, dims @ ..] => match slots {
            [] => unreachable!(),
            [slot, slots @ ..] => {
                let behind = Counts {
                    places: counts.places / spaces.range(*dim).1,
                    matches: counts.matches / slot_count(spaces, *dim, *slot),
                };
                let first = slot_first(spaces, values, *dim, *slot);
                let member = first + turn / behind.matches;
                member * behind.places
                    + place_in_turn(spaces, values, dims, slots, turn % behind.matches, behind)
            }
        },
    }
}
