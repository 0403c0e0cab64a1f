//! How long a program runs: laws that proofs above cite, with nothing to run.

ghost use Rattle.sequential_costs.specs.FewSteps.{EndIsTheMeaning, FoldIsNear, HaltIsTheMeaning, OneStepMore, StepsAreFew};

/// A program whose number of steps isn't past the limit has ended after as many steps of its meaning, or after fewer.
pub fn steps_are_few()
    ensures few { StepsAreFew }
    ensures fold { FoldIsNear }
{}

/// Steps are taken one by one, and where they end or halt is the program's meaning.
pub fn steps_end_in_the_meaning()
    ensures more { OneStepMore }
    ensures end { EndIsTheMeaning }
    ensures halt { HaltIsTheMeaning }
{}
