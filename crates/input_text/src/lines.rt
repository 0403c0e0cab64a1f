//! The first line of a text.

ghost use Rattle.std.specs.Prelude.{◌≡◌, ◌<◌, ◌≤◌, length, take, drop};
ghost use Rattle.input_text.specs.LineReading as spec;

use crate::part::before_line_feed;

/// The first line, with its line feed, and what is left.
pub fn first_line(text: &[u8]) -> (&[u8], &[u8])
    ensures front { result.0.now ≡ take (spec.line_len text.now) text.now }
    ensures back { result.1.now ≡ drop (spec.line_len text.now) text.now }
    ensures shorter { 0 < length text.now → length result.1.now < length text.now }
{
    text.split_at(line_len(text))
}

// How many bytes the first line has, with its line feed.
fn line_len(text: &[u8]) -> usize
    ensures value { result ≡ spec.line_len text.now }
    ensures within { result ≤ length text.now }
    ensures some { 0 < length text.now → 0 < result }
{
    let len = before_line_feed(text);
    if len < text.len() { len + 1 } else { len }
}
