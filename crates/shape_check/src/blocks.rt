//! The rules that a block breaks where it is named.

ghost use Rattle.std.specs.Prelude.{◌≡◌, not};
ghost use Rattle.sial_syntax.specs.Agreeing.{fits_dims};
ghost use Rattle.sial_syntax.specs.Shapes.{wrong_dims, wrong_rank, wrong_transfer};
ghost use Rattle.shape_check.specs.Breaks as spec;
ghost use Rattle.shape_check.specs.Known.{IsKnown, tree_of};

use crate::broken::Broken;
use crate::declared::Declared;
use crate::lists::{all_in, has_twice, same_list};
use sial_syntax::BlockRef;

/// A block where it is named.
pub fn block_breaks(declared: &Declared, bound: &[u16], block: &BlockRef) -> Broken
    requires { IsKnown declared.now }
    ensures { result ≡ spec.block_breaks (tree_of declared.now) bound.now block.now }
{
    let at = block.at.as_slice();
    Broken {
        unbound: !all_in(at, bound),
        rebound: false,
        repeated: has_twice(at),
        kind: !fits_dims(declared, at, declared.dims(block.array)),
        indices: at.len() != declared.dims(block.array).len(),
        writable: false,
    }
}

// Whether the indices at the places that both lists have may stand there.
fn fits_dims(declared: &Declared, used: &[u16], dims: &[u16]) -> bool
    requires { IsKnown declared.now }
    ensures { result ≡ fits_dims (tree_of declared.now) used.now dims.now }
{
    match used {
        [] => true,
        [index, used @ ..] => match dims {
            [] => true,
            [dim, dims @ ..] => {
                declared.may_stand_for(*index, *dim) && fits_dims(declared, used, dims)
            }
        },
    }
}

/// A block named alone, of an array that is of the kind wanted or not.
pub fn named_breaks(declared: &Declared, bound: &[u16], wanted: bool, block: &BlockRef) -> Broken
    requires { IsKnown declared.now }
    ensures { result ≡ spec.named_breaks (tree_of declared.now) bound.now wanted block.now }
{
    block_breaks(declared, bound, block).or(Broken::only_kind(!wanted))
}

/// A block that is computed.
pub fn integrals_break(declared: &Declared, bound: &[u16], block: &BlockRef) -> Broken
    requires { IsKnown declared.now }
    ensures { result ≡ spec.integrals_break (tree_of declared.now) bound.now block.now }
{
    block_breaks(declared, bound, block).or(Broken {
        unbound: false,
        rebound: false,
        repeated: false,
        kind: false,
        indices: false,
        writable: !declared.is_own(block.array),
    })
}

/// A transfer whose shared block is of its kind or not.
pub fn transfer_breaks(
    declared: &Declared,
    bound: &[u16],
    shared: bool,
    block: &BlockRef,
    from: &BlockRef,
) -> Broken
    requires { IsKnown declared.now }
    ensures { result ≡ spec.transfer_breaks (tree_of declared.now) bound.now shared block.now from.now }
{
    let blocks = block_breaks(declared, bound, block).or(block_breaks(declared, bound, from));
    blocks.or(Broken {
        unbound: false,
        rebound: false,
        repeated: false,
        kind: !shared || !declared.is_own(from.array),
        indices: !same_list(block.at.as_slice(), from.at.as_slice()),
        writable: false,
    })
}
