//! Signs.

ghost use Rattle.std.specs.Prelude.{◌≡◌, ◌≤◌, length};
ghost use Rattle.sial_lexer.specs.Scanning as spec;

/// How many bytes the longest sign at the front has; 0 where none stands there.
pub fn sign_len(text: &[u8]) -> usize
    ensures value { result ≡ spec.sign_len text.now }
    ensures within { result ≤ length text.now }
{
    match text {
        [b'+' | b'-' | b'*' | b'<' | b'>' | b'=' | b'!', b'=', ..] => 2,
        [
            b'=' | b'<' | b'>' | b'+' | b'-' | b'*' | b'^' | b'(' | b')' | b',',
            ..
        ] => 1,
        _ => 0,
    }
}
