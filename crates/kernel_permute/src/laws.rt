//! What the results hold, position by position: laws that a proof above cites, with nothing to run.

ghost use Rattle.kernel_permute.specs.Laws.{InsertsEachPosition, InsertsNoOther, KeepsLength, PermutesEachPosition, SlicesEachPosition};

/// A permuted block at the position that its order makes of a source's position.
pub fn permutes_each_position()
    ensures { PermutesEachPosition }
{}

/// A part that is taken out, at each of its positions.
pub fn slices_each_position()
    ensures { SlicesEachPosition }
{}

/// A block with a part put in: at the part's positions the source's numbers, elsewhere its own.
pub fn inserts_each_position()
    ensures part { InsertsEachPosition }
    ensures rest { InsertsNoOther }
{}

/// No result is longer or shorter than its target.
pub fn keeps_length()
    ensures { KeepsLength }
{}
