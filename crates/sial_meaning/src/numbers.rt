//! Numbers of states: laws that proofs above cite, with nothing to run.

ghost use Rattle.sial_meaning.specs.NumberStates.{ReachedStatesHaveNumbers};

/// In every state of a sound setting index numbers, scalars and all elements are below 2^64.
pub fn states_have_numbers()
    ensures { ReachedStatesHaveNumbers }
{}
