//! A law of plain spellings, with nothing to run.

ghost use Rattle.sip_words.specs.Laws.{OrderDoesNotMatter};

/// The order of options doesn't matter.
pub fn order_does_not_matter()
    ensures { OrderDoesNotMatter }
{}
