//! What the definitions of boxes, kinds, calls and faults say: laws that proofs above cite, with nothing to run.

ghost use Rattle.sial_syntax.specs.BoxLaws.{NumbersOfRank, NumbersWithin, PlaceOfTuple, PlaceWithin, RankOfNumbers, RankWithin, TupleOfPlace, TuplesCounted, TuplesInOrder, TupleWithin};
ghost use Rattle.sial_syntax.specs.CallLaws.{DepthByCalls, InnerByCalls, OuterByCalls, ReachedByChains, RecursionByChains};
ghost use Rattle.sial_syntax.specs.FirstLaws.{FirstIsFirst, NoneWithoutFaults};
ghost use Rattle.sial_syntax.specs.KindLaws.{KindOfSegments, KindOfSubindex};

/// The place of a tuple in its box, and the tuple at a place.
pub fn places_and_tuples()
    ensures place { PlaceOfTuple }
    ensures tuple { TupleOfPlace }
    ensures place_within { PlaceWithin }
    ensures tuple_within { TupleWithin }
{}

/// All tuples of a box.
pub fn tuples_in_order()
    ensures order { TuplesInOrder }
    ensures count { TuplesCounted }
{}

/// The segment numbers of some indices, and their place in the box of those indices.
pub fn ranks_and_numbers()
    ensures rank { RankOfNumbers }
    ensures numbers { NumbersOfRank }
    ensures rank_within { RankWithin }
    ensures numbers_within { NumbersWithin }
{}

/// The kind of an index is its range's, and a subindex has that of its super index, so that of the end of its chain.
pub fn kinds_of_indices()
    ensures segments { KindOfSegments }
    ensures subindex { KindOfSubindex }
{}

/// Where chains of calls lead, how deep they go, and which sides they give.
pub fn chains_of_calls()
    ensures reached { ReachedByChains }
    ensures recursion { RecursionByChains }
    ensures depth { DepthByCalls }
    ensures outer { OuterByCalls }
    ensures inner { InnerByCalls }
{}

/// The first fault of some.
pub fn first_of_faults()
    ensures first { FirstIsFirst }
    ensures none { NoneWithoutFaults }
{}
