//! Plain spellings.

ghost use Rattle.std.specs.Prelude.{◌≡◌, map, option_map, IfOk};
ghost use Rattle.sip_words.specs.Reading.{of_command, request_in};
ghost use Rattle.sip_words.specs.Seen.{seen};

use crate::command::Command;
use crate::granted::granted;
use crate::request::Request;
use crate::setting::settings_in;
use std::alloc::{AllocError, Global};

/// The request that words spell plainly, if they do.
pub fn read_plain<'a>(alloc: Global, words: &[&'a str]) -> Result<Option<Request<'a>>, AllocError>
    ensures { IfOk result (λ r. option_map seen r ≡ request_in (map (λ w. w.now) words.now)) }
{
    let [_, word, rest @ ..] = words else {
        return Ok(None);
    };
    match Command::named(word) {
        Some(command) => read_command(alloc, command, rest),
        None => Ok(None),
    }
}

// The request of a command and the words behind it.
fn read_command<'a>(
    alloc: Global,
    command: Command,
    rest: &[&'a str],
) -> Result<Option<Request<'a>>, AllocError>
    ensures { IfOk result (λ r. option_map seen r ≡ of_command (map (λ w. w.now) rest.now) command) }
{
    let count = command.operands().len();
    if rest.len() < count {
        return Ok(None);
    }
    let (operands, options) = rest.split_at(count);
    match settings_in(alloc, options)? {
        Some(settings) => Ok(granted(command, operands, settings.as_slice())),
        None => Ok(None),
    }
}
