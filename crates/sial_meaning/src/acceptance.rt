//! What acceptance says in other words: laws that proofs above cite, with nothing to run.

ghost use Rattle.sial_meaning.specs.AcceptedLaws.{NoRefusalSaysAccepted, PairsSayCounts};
ghost use Rattle.sial_meaning.specs.MarkLaws.{EpochsNeverFall, MarksFindClashOfProgram, MarksFindFirstClash};

/// Pairs of the log, counts and the marks of blocks say the same, and a program is accepted exactly where nothing refuses it.
pub fn accepted_in_other_words()
    ensures counts { PairsSayCounts }
    ensures refusal { NoRefusalSaysAccepted }
    ensures marks { MarksFindFirstClash }
{}

/// Epochs never fall in the log of a program, so the marks find its first clash.
pub fn epochs_in_order()
    ensures order { EpochsNeverFall }
    ensures marks { MarksFindClashOfProgram }
{}
