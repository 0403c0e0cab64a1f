//! Numbers of steps; one that is above the limit is kept as the next above it.

ghost use Rattle.std.specs.Prelude.{◌≡◌, ◌+◌, ◌*◌, ◌^◌, ◌≤◌};
ghost use Rattle.sial_meaning.specs.Costs.{capped};

const PAST_LIMIT: u64 = (1 << 62) + 1;

/// Two numbers of steps together.
pub fn plus(steps: u64, others: u64) -> u64
    ensures sum { result ≡ capped (steps + others) }
    ensures most { result ≤ 2 ^ 62 + 1 }
{
    steps.saturating_add(others).min(PAST_LIMIT)
}

/// The head of a loop, and in each of its turns one step more than its body has.
#[tactic(auto, using(crate::proofs::ArithmeticLemmas::turns_kept))]
pub fn turns(head: u64, count: u64, body: u64) -> u64
    requires { body ≤ 2 ^ 62 + 1 }
    ensures sum { result ≡ capped (head + count * (1 + body)) }
    ensures most { result ≤ 2 ^ 62 + 1 }
{
    plus(head, count.saturating_mul(1 + body))
}
