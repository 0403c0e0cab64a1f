//! The pieces that subindices have in segments.

ghost use Rattle.std.specs.Prelude.{◌≡◌, ◌≤◌, [], IfOk, length};
ghost use Rattle.sial_meaning.specs.Costs as spec;
ghost use Rattle.sial_syntax.specs.Spaces as sp;
ghost use Rattle.sequential_costs.specs.Cuttings as cut;
ghost use Rattle.sequential_costs.specs.Over.{over};
ghost use Rattle.sequential_costs.specs.Cuttings.{AreCuttings};

use index_spaces::Spaces;
use sial_syntax::{IndexDecl, Kind, Range};
use std::alloc::{AllocError, Global};

/// An index, and the most pieces that a subindex has in a segment of it.
#[derive(Clone, Copy)]
pub struct Cutting {
    pub index: u16,
    pub most: u32,
}

/// For each index the most pieces that it has in a segment of its super index; one that isn't a subindex, of itself.
#[tactic(auto, using(crate::proofs::CuttingLemmas::none_yet, crate::proofs::CuttingLemmas::one_more))]
pub fn cuttings(
    alloc: Global,
    spaces: &Spaces,
    indices: &[IndexDecl],
) -> Result<Vec<Cutting>, AllocError>
    requires { length indices.now ≤ 256 }
    ensures { IfOk result (λ cuttings. AreCuttings spaces.now.spaces cuttings.items) }
{
    let mut cuttings = Vec::with_capacity(alloc, indices.len())?;
    for k in 0..indices.len() {
        let index = cut_index(k as u16, &indices[k]);
        let most = most_pieces(spaces, k as u16, index);
        cuttings.push(Cutting { index, most })?;
    }
    Ok(cuttings)
}

// The index whose segments an index cuts; one that isn't a subindex has its own.
fn cut_index(index: u16, declared: &IndexDecl) -> u16 {
    match declared.range {
        Range::Sub { super_index } => super_index,
        Range::Segments { .. } => index,
    }
}

/// The most pieces that a subindex has in a segment of an index, looked up where it cuts that one.
#[tactic(auto, using(crate::proofs::CuttingLemmas::looked_up))]
pub fn pieces_at(spaces: &Spaces, cuttings: &[Cutting], sub: u16, index: u16) -> u32
    requires { AreCuttings spaces.now.spaces cuttings.now }
    ensures { result ≡ spec.most_pieces (over spaces.now.spaces []) sub index }
{
    match cuttings.get(sub as usize) {
        Some(cutting) if cutting.index == index => cutting.most,
        _ => most_pieces(spaces, sub, index),
    }
}

// The most pieces that a subindex has in a segment of an index.
#[tactic(auto, using(index_spaces::proofs::WidthLemmas::one_turn))]
fn most_pieces(spaces: &Spaces, sub: u16, index: u16) -> u32
    ensures { result ≡ spec.most_pieces (over spaces.now.spaces []) sub index }
{
    let (first, count) = spaces.range(index);
    let mut most = 0;
    for k in 0..count {
        most = pieces_in(spaces, sub, first + k).max(most);
    }
    most
}

// How many pieces a subindex has in a segment; none where there is no such segment, but for plain numbers.
#[tactic(auto, using(crate::proofs::PieceLemmas::uncut, crate::proofs::PieceLemmas::before_first, crate::proofs::PieceLemmas::past_last))]
fn pieces_in(spaces: &Spaces, sub: u16, segment: u32) -> u32
    ensures { result ≡ sp.pieces_of spaces.now.spaces sub segment }
{
    let kind = spaces.kind(sub);
    if spaces.piece_len(kind) == 0 || segment == 0 {
        return 0;
    }
    if segment <= spaces.segments(kind) {
        return spaces.pieces(sub, segment);
    }
    pieces_past(kind)
}

// The pieces of a segment behind a kind's last one.
fn pieces_past(kind: Kind) -> u32
    ensures { result ≡ cut.pieces_past kind }
{
    match kind {
        Kind::Index => 1,
        _ => 0,
    }
}
