//! What is said of the first fault of a text: laws that proofs above cite, with nothing to run.

ghost use Rattle.sial_faults.specs.Laws.{FaultIsTold, FirstStands, NoneStands, ProgramsHaveForm};

/// A text is refused for the fault whose token stands first; the words before it could become a program, those with it can't.
pub fn first_faults()
    ensures told { FaultIsTold }
    ensures stands { FirstStands }
    ensures none_stands { NoneStands }
    ensures form { ProgramsHaveForm }
{}
