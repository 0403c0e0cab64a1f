//! The first fault of declarations.

ghost use Rattle.std.specs.Prelude.{◌≡◌};
ghost use Rattle.std.specs.List.{list_any};
ghost use Rattle.sial_syntax.specs.Agreeing.{is_sub};
ghost use Rattle.sial_syntax.specs.Shapes.{array_breaks_kind, index_breaks_kind};
ghost use Rattle.shape_check.specs.Known.{tree_of};
ghost use Rattle.shape_check.specs.Refused.{seen};
ghost use Rattle.shape_check.specs.Walk as spec;

use crate::declared::Declared;
use crate::fault::{ShapeFault, sooner};
use sial_syntax::{ArrayDecl, ArrayKind, IndexDecl, Range};

/// The earlier of a fault and the first one of indices: a subindex of a subindex.
pub fn first_of_indices(
    declared: &Declared,
    indices: &[IndexDecl],
    first: Option<ShapeFault>,
) -> Option<ShapeFault>
    ensures { seen result ≡ spec.first_of_indices (tree_of declared.now) indices.now (seen first) }
{
    let mut first = first;
    for index in indices {
        first = sooner(first, kind_fault(cuts_sub(declared, index), index.line));
    }
    first
}

/// The earlier of a fault and the first one of arrays: a subindex in an array that isn't temp.
pub fn first_of_arrays(
    declared: &Declared,
    arrays: &[ArrayDecl],
    first: Option<ShapeFault>,
) -> Option<ShapeFault>
    ensures { seen result ≡ spec.first_of_arrays (tree_of declared.now) arrays.now (seen first) }
{
    let mut first = first;
    for array in arrays {
        first = sooner(first, kind_fault(is_cut(declared, array), array.line));
    }
    first
}

// The fault of a declaration that breaks the rule on kinds.
fn kind_fault(is_broken: bool, line: u32) -> Option<ShapeFault>
    ensures { seen result ≡ spec.fault_if is_broken line 4 }
{
    if is_broken {
        Some(ShapeFault::WrongKind { line })
    } else {
        None
    }
}

// Whether an index cuts a subindex.
fn cuts_sub(declared: &Declared, index: &IndexDecl) -> bool
    ensures { result ≡ index_breaks_kind (tree_of declared.now) index.now }
{
    match index.range {
        Range::Segments { .. } => false,
        Range::Sub { super_index } => declared.is_sub(super_index),
    }
}

// Whether an array that isn't temp has a subindex.
fn is_cut(declared: &Declared, array: &ArrayDecl) -> bool
    ensures { result ≡ array_breaks_kind (tree_of declared.now) array.now }
{
    !matches!(array.kind, ArrayKind::Temp) && any_sub(declared, array.dims.as_slice())
}

// Whether one of some indices is a subindex.
pub fn any_sub(declared: &Declared, indices: &[u16]) -> bool
    ensures { result ≡ list_any (is_sub (tree_of declared.now)) indices.now }
{
    indices.iter().any(|index| declared.is_sub(*index))
}
