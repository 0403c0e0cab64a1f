//! What crates above cite of shared blocks, with nothing to run.

ghost use Rattle.shared_blocks.specs.Laws.{DeletesKeepWords, WhatIsThereIsHeld};

/// A block of an array that is there is one of those that are held, as long as its array says.
pub fn what_is_there_is_held()
    ensures { WhatIsThereIsHeld }
{}

/// Where an array is deleted no word changes: the same blocks stand for the state after it.
pub fn deletes_keep_words()
    ensures { DeletesKeepWords }
{}
