//! How far pardos in progress have come: a law that proofs above cite, with nothing to run.

ghost use Rattle.exec_alone.specs.Laws.{TurnsAreFew, TurnsStayBelow};

/// No pardo in progress has come to more tuples than a program took steps.
pub fn turns_are_few()
    ensures few { TurnsAreFew }
    ensures more { TurnsStayBelow }
{}
