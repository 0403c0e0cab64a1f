//! Arrays as wholes, and the lists of their blocks: laws that proofs above cite, with nothing to run.

ghost use Rattle.sial_meaning.specs.WholeLaws.{AbsentBlocksAreNotThere, BlocksAreApart, BlocksAreTheMap, HeldBlocksAreTheMap, NothingElseIsThere};
ghost use Rattle.sial_meaning.specs.WholeStates.{AbsentLocalsAreNotThere, BlocksOfStatesAreTheMap, LocalsOfStatesAreTheMap, OutcomesAreReached, ReachedStatesAreWhole, TempsOfStatesAreTheMap};

/// A block's list is the map from positions to numbers at the block's positions, and the map has nothing else.
pub fn blocks_are_the_map()
    ensures block { BlocksAreTheMap }
    ensures apart { BlocksAreApart }
    ensures absent { AbsentBlocksAreNotThere }
    ensures others { NothingElseIsThere }
    ensures held { HeldBlocksAreTheMap }
{}

/// In every state of a sound setting each block that is there has as many elements as positions, so its list is the map.
pub fn states_are_whole()
    ensures whole { ReachedStatesAreWhole }
    ensures outcome { OutcomesAreReached }
    ensures block { BlocksOfStatesAreTheMap }
    ensures local { LocalsOfStatesAreTheMap }
    ensures absent { AbsentLocalsAreNotThere }
    ensures held { TempsOfStatesAreTheMap }
{}
