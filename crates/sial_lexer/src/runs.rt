//! How far the bytes of one class go on.

ghost use Rattle.std.specs.Prelude.{◌≡◌, ◌≤◌, length};
ghost use Rattle.std.specs.List.{list_all, prefix_len};
ghost use Rattle.sial_lexer.specs.Characters as characters;

/// How many bytes at the front stand in names.
pub fn word_len(text: &[u8]) -> usize
    ensures value { result ≡ prefix_len characters.is_word_byte text.now }
    ensures within { result ≤ length text.now }
{
    text.iter()
        .take_while(|b| matches!(**b, b'a'..=b'z' | b'A'..=b'Z' | b'0'..=b'9' | b'_'))
        .count()
}

/// How many bytes at the front are digits.
pub fn digits_len(text: &[u8]) -> usize
    ensures value { result ≡ prefix_len characters.is_digit text.now }
    ensures within { result ≤ length text.now }
{
    text.iter()
        .take_while(|b| matches!(**b, b'0'..=b'9'))
        .count()
}

/// How many bytes at the front may stand in a printed text.
pub fn text_len(text: &[u8]) -> usize
    ensures value { result ≡ prefix_len characters.is_text_byte text.now }
    ensures within { result ≤ length text.now }
{
    text.iter()
        .take_while(|b| matches!(**b, b' '..=b'!' | b'#'..=b'~'))
        .count()
}

/// How many bytes there are before the line feed.
pub fn line_len(text: &[u8]) -> usize
    ensures value { result ≡ prefix_len characters.is_within_line text.now }
    ensures within { result ≤ length text.now }
{
    text.iter().take_while(|b| **b != b'\n').count()
}

/// Whether all bytes are the digit 0.
pub fn are_zeros(text: &[u8]) -> bool
    ensures { result ≡ list_all characters.is_zero text.now }
{
    text.iter().all(|b| *b == b'0')
}
