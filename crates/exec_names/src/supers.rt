//! Which indices cut the segments of others.

ghost use Rattle.std.specs.Prelude.{◌≡◌};
ghost use Rattle.exec_names.specs.Cutting as spec;
ghost use Rattle.sial_syntax.specs.Agreeing.{range_super};

use sial_syntax::{IndexDecl, Range};

/// The index whose segments an index cuts.
pub fn super_of(indices: &[IndexDecl], index: u16) -> Option<u16>
    ensures { result ≡ spec.super_of indices.now index }
{
    match indices.get(index as usize) {
        Some(declared) => super_by(&declared.range),
        None => None,
    }
}

// The index whose segments a range cuts.
fn super_by(range: &Range) -> Option<u16>
    ensures { result ≡ range_super range.now }
{
    match range {
        Range::Segments { .. } => None,
        Range::Sub { super_index } => Some(*super_index),
    }
}
