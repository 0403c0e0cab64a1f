//! A program done step by step.

ghost use Rattle.sial_meaning.specs.Laws.{StepsReachTheFold};

/// The work of a granted program, done step by step, ends or halts as the fold over its tree does.
pub fn steps_reach_the_fold()
    ensures { StepsReachTheFold }
{}
