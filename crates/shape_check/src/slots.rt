//! The rules that the slots of `allocate` and `deallocate` break.

ghost use Rattle.std.specs.Prelude.{◌≡◌, IfOk};
ghost use Rattle.sial_syntax.specs.Agreeing.{slot_fits, slots_fit};
ghost use Rattle.shape_check.specs.Breaks as spec;
ghost use Rattle.shape_check.specs.Known.{IsKnown, tree_of};

use crate::broken::Broken;
use crate::declared::Declared;
use crate::lists::{all_in, has_twice};
use sial_syntax::{ArrayKind, Slot};
use std::alloc::{AllocError, Global};

/// The slots of an array.
pub fn slots_break(
    alloc: Global,
    declared: &Declared,
    bound: &[u16],
    array: u16,
    at: &[Slot],
) -> Result<Broken, AllocError>
    requires { IsKnown declared.now }
    ensures { IfOk result (λ broken. broken ≡ spec.slots_break (tree_of declared.now) bound.now array at.now) }
{
    let indices = indices_of_slots(alloc, at)?;
    let is_local = matches!(declared.array_kind(array), ArrayKind::Local);
    Ok(Broken {
        unbound: !all_in(indices.as_slice(), bound),
        rebound: false,
        repeated: has_twice(indices.as_slice()),
        kind: !slots_fit(declared, at, declared.dims(array)) || !is_local,
        indices: at.len() != declared.dims(array).len(),
        writable: false,
    })
}

// The indices of a slot list.
fn indices_of_slots(alloc: Global, at: &[Slot]) -> Result<Vec<u16>, AllocError>
    ensures { IfOk result (λ indices. indices.items ≡ spec.indices_of_slots at.now) }
{
    let mut indices = Vec::new(alloc);
    for slot in at {
        if let Slot::At(index) = slot {
            indices.push(*index)?;
        }
    }
    Ok(indices)
}

// Whether the slots at the places that both lists have may stand there.
fn slots_fit(declared: &Declared, at: &[Slot], dims: &[u16]) -> bool
    requires { IsKnown declared.now }
    ensures { result ≡ slots_fit (tree_of declared.now) at.now dims.now }
{
    match at {
        [] => true,
        [slot, at @ ..] => match dims {
            [] => true,
            [dim, dims @ ..] => slot_fits(declared, *slot, *dim) && slots_fit(declared, at, dims),
        },
    }
}

// Whether a slot may stand where an index is declared.
fn slot_fits(declared: &Declared, slot: Slot, dim: u16) -> bool
    requires { IsKnown declared.now }
    ensures { result ≡ slot_fits (tree_of declared.now) slot dim }
{
    match slot {
        Slot::At(index) => declared.may_stand_for(index, dim),
        Slot::All => true,
    }
}
