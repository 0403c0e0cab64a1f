//! Where steps meet a program's first refusal: laws that a checker's loop rests on, with nothing to run.

ghost use Rattle.epoch_check.specs.OnTheWay.{ClashOnTheWay, EndOnTheWay, TrapOnTheWay};

/// A clash that a step logs, a trap without one before it, and the end without either are the program's: what is met first on the
/// way is its first refusal, and where nothing is met it is accepted.
pub fn refusals_are_met_on_the_way()
    ensures clash { ClashOnTheWay }
    ensures trap { TrapOnTheWay }
    ensures end { EndOnTheWay }
{}
