//! What a step does by what comes next.

ghost use Rattle.sial_meaning.specs.NextLaws.{EffectsByWhatIsAsked};

/// A statement that holds no other does what its class says: nothing outside, reads, a write, or a meeting of all workers.
pub fn statements_do_what_they_ask_for()
    ensures { EffectsByWhatIsAsked }
{}
