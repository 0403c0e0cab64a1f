//! The spaces of a small program, opened and read.

ghost use Rattle.std.specs.Prelude.{◌≡◌, IfOk, length};
ghost use Rattle.sial_syntax.specs.Spaces.{kind_of};

use index_spaces::{Cuts, Kinds, Spaces, Span};
use sial_syntax::Kind;
use std::alloc::{AllocError, Global};
use std::test::Fail;

// Segments 2, 1, 3 of ao in pieces of 2; `i` over the last two, its subindex `ii`, `j` over 1 to 3; no arrays.
fn opened(alloc: Global) -> Result<Spaces, AllocError>
    ensures segments { IfOk result (λ s. length s.spaces.ao.segments ≡ 3) }
    ensures kind { IfOk result (λ s. kind_of s.spaces 0 ≡ Kind.Ao) }
{
    let kinds = Kinds {
        ao: Cuts::of(alloc, &[2, 1, 3], 2)?,
        mo: Cuts::of(alloc, &[], 0)?,
        moa: Cuts::of(alloc, &[], 0)?,
        mob: Cuts::of(alloc, &[], 0)?,
    };
    let i = Span::Segments {
        kind: Kind::Ao,
        first: 2,
        count: 2,
    };
    let ii = Span::Pieces { super_index: 0 };
    let j = Span::Segments {
        kind: Kind::Index,
        first: 1,
        count: 3,
    };
    let spans = vec![in alloc; i, ii, j]?;
    Spaces::open(alloc, kinds, spans, &[])
}

#[test]
fn a_small_program_has_its_ranges_and_segments(rt: HostRuntime) -> Result<(), Fail> {
    let spaces = opened(rt.alloc())?;
    assert_eq!(rt; spaces.range(0), (2, 2));
    assert_eq!(rt; spaces.range(1), (1, 0));
    assert_eq!(rt; spaces.segment(0, 3), (4, 3));
    assert_eq!(rt; spaces.box_len(&[0, 2]), 6);
    assert_eq!(rt; spaces.box_len(&[0, 1]), 0);
    Ok(())
}
