//! What becomes of a block's words where other words meet them.

ghost use Rattle.std.specs.Prelude.{◌≡◌, length};
ghost use Rattle.sial_meaning.specs.State.{accessed_words};

use block_math::{add, greatest};
use sial_syntax::Access;

/// Words meet a block's words, as an access does.
#[tactic(auto, using(crate::proofs::MeetLemmas::all))]
pub fn meet(words: &mut [u64], how: Access, from: &[u64])
    requires { length words.old ≡ length from.now }
    ensures { words.new ≡ accessed_words how words.old from.now }
{
    match how {
        Access::Read => {}
        Access::Store => words.copy_from_slice(from),
        Access::Add => add(words, from),
        Access::Max => greatest(words, from),
    }
}
