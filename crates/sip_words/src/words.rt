//! The words of a call.

ghost use Rattle.std.specs.Prelude.{◌≡◌, ◌≢◌, ◌<◌, Err, map, length, IfOk};
ghost use Rattle.sip_words.specs.Asking.{IsRequest};
ghost use Rattle.sip_words.specs.Plain.{Spells, most_words};
ghost use Rattle.sip_words.specs.Requests as asked;
ghost use Rattle.sip_words.specs.Seen.{texts, seen};

use crate::fault::WordsFault;
use crate::line::read_line;
use crate::plain::read_plain;
use crate::request::Request;
use std::alloc::{AllocError, Global};

const MOST_WORDS: usize = 64;

/// The request that words are, the program's name first.
///
/// It is that of a plain spelling, else what `clap` makes of the words within the same limits.
pub fn read_words<'a>(alloc: Global, words: &'a [String]) -> Result<Request<'a>, WordsFault>
    ensures plain { (request : asked.Request) → Spells (texts words.now) request → IfOk result (λ r. seen r ≡ request) }
    ensures never_usage { (request : asked.Request) → Spells (texts words.now) request → result ≢ Err WordsFault.Usage }
    ensures within { IfOk result (λ r. IsRequest (seen r)) }
    ensures many { most_words < length words.now → IfOk result (λ r. ⊥) }
{
    if words.len() > MOST_WORDS {
        return Err(WordsFault::Usage);
    }
    let plain = texts(alloc, words)?;
    match read_plain(alloc, plain.as_slice())? {
        Some(request) => Ok(request),
        None => read_line(alloc, words),
    }
}

// The texts of words.
fn texts<'a>(alloc: Global, words: &'a [String]) -> Result<Vec<&'a str>, AllocError>
    ensures { IfOk result (λ t. map (λ w. w.now) t.items ≡ texts words.now) }
{
    let mut texts = Vec::new(alloc);
    for word in words {
        texts.push(word.as_str())?;
    }
    Ok(texts)
}
