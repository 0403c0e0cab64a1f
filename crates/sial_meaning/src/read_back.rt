//! What assignments to a block read back: laws that proofs above cite, with nothing to run.

ghost use Rattle.sial_meaning.specs.CopyLaws.{CopiesReadBack, EachIsOneOfThree, InsertionsLeaveTheRest, InsertionsReadBack, SlicesReadBack};
ghost use Rattle.sial_meaning.specs.HeldLaws.{AssignmentsAreHeld};
ghost use Rattle.sial_meaning.specs.JoinLaws.{ContractionsByName, ContractionsReadBack, ContractionsToNumbers, DifferencesByName, DifferencesReadBack, FillsEverywhere, OuterProductsByName, OuterProductsReadBack, ScalingsByName, ScalingsReadBack, SumsByName, SumsReadBack};
ghost use Rattle.sial_meaning.specs.ReadBackLaws.{AsManyElements, CopiesByName, EachElementIsMet, InsertionsKeepOthers, InsertsByPosition, SlicesByPosition};

/// Every element of the result, whatever the right side is.
pub fn elements_are_met()
    ensures element { EachElementIsMet }
    ensures length { AsManyElements }
{}

/// One block assigned to another: in another order, as a slice and as an insertion.
pub fn copies_read_back()
    ensures copy { CopiesByName }
    ensures slice { SlicesByPosition }
    ensures insertion { InsertsByPosition }
    ensures others { InsertionsKeepOthers }
{}

/// One block assigned to another by a statement of a program that the rules grant.
pub fn granted_copies_read_back()
    ensures one_of_three { EachIsOneOfThree }
    ensures copy { CopiesReadBack }
    ensures slice { SlicesReadBack }
    ensures insertion { InsertionsReadBack }
    ensures rest { InsertionsLeaveTheRest }
{}

/// Two blocks added, subtracted or multiplied, and a block scaled, by the names of indices.
pub fn joins_read_back()
    ensures sums { SumsByName }
    ensures differences { DifferencesByName }
    ensures outer_products { OuterProductsByName }
    ensures contractions { ContractionsByName }
    ensures numbers { ContractionsToNumbers }
    ensures scalings { ScalingsByName }
    ensures fills { FillsEverywhere }
{}

/// The same by a statement of a program that the rules grant.
pub fn granted_joins_read_back()
    ensures sums { SumsReadBack }
    ensures differences { DifferencesReadBack }
    ensures outer_products { OuterProductsReadBack }
    ensures contractions { ContractionsReadBack }
    ensures scalings { ScalingsReadBack }
{}

/// What an assignment to a block leaves is what its target reads from then on.
pub fn assignments_are_held()
    ensures { AssignmentsAreHeld }
{}
