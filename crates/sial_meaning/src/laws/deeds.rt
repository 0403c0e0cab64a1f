//! What iterations do to the world outside: their deeds.

ghost use Rattle.sial_meaning.specs.DeedLaws.{CoursesAreTheirDeeds, IterationsAreTheirDeeds, PardosAreTheirDeeds};
ghost use Rattle.sial_meaning.specs.DeedSums.{AddsComeToTheSum, MaxesByCounts, MaxesComeToTheGreatest, OneStoreIsItsValue, OrderDoesNotMatter, OtherBlocksStay};
ghost use Rattle.sial_meaning.specs.ToComeLaws.{AllIsToCome, BeginningsAreInside, DoneAndToCome, IterationsEnd, StatementsInsideAreTheirDeeds, StepsStayInside, StepsTakeTheFirstPart};

/// The fold over an iteration, a pardo of the course, and the log of each point are the deeds applied in order.
pub fn iterations_are_their_deeds()
    ensures iterations { IterationsAreTheirDeeds }
    ensures pardos { PardosAreTheirDeeds }
    ensures courses { CoursesAreTheirDeeds }
{}

/// What deeds of one kind come to: adds their sum, maxes the greatest, one store its value, in whatever order.
pub fn deeds_of_one_kind()
    ensures adds { AddsComeToTheSum }
    ensures maxes { MaxesComeToTheGreatest }
    ensures counts { MaxesByCounts }
    ensures store { OneStoreIsItsValue }
    ensures none { OtherBlocksStay }
    ensures order { OrderDoesNotMatter }
{}

/// What is still to come of an iteration is the fold of the rest of its work, and a step takes its first part off.
pub fn steps_take_the_first_part_off()
    ensures begins { AllIsToCome }
    ensures step { StepsTakeTheFirstPart }
    ensures together { DoneAndToCome }
    ensures ends { IterationsEnd }
    ensures inside { BeginningsAreInside }
    ensures on { StepsStayInside }
    ensures statement { StatementsInsideAreTheirDeeds }
{}
