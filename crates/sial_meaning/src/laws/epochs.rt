//! Reads of the blocks as they stood when the epoch began.

ghost use Rattle.sial_meaning.specs.EpochLaws.{SameLog, SameOutcome, SameRefusal, SameStates};

/// The epoch meaning of a proper program is its sequential meaning up to the first refusal.
pub fn epochs_agree_up_to_the_first_refusal()
    ensures refusal { SameRefusal }
    ensures log { SameLog }
    ensures outcome { SameOutcome }
    ensures states { SameStates }
{}
