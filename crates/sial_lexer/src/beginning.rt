//! What a byte begins.

ghost use Rattle.std.specs.Prelude.{◌≡◌};
ghost use Rattle.sial_lexer.specs.Characters as characters;

/// What a byte begins where no comment, text, name or number is open.
#[derive(Clone, Copy)]
pub enum Beginning {
    /// A name.
    Letter,
    /// A number.
    Digit,
    /// A text.
    Quote,
    /// A comment.
    Hash,
    /// A space or a tab.
    Blank,
    /// A line end.
    LineFeed,
    /// A line end, before a line feed alone.
    Return,
    /// A sign.
    Sign,
    /// Nothing.
    Nothing,
}

/// What a byte begins.
pub fn beginning_of(byte: u8) -> Beginning
    ensures { result ≡ characters.beginning_of byte }
{
    match byte {
        b'a'..=b'z' | b'A'..=b'Z' => Beginning::Letter,
        b'0'..=b'9' => Beginning::Digit,
        b'"' => Beginning::Quote,
        b'#' => Beginning::Hash,
        b' ' | b'\t' => Beginning::Blank,
        b'\n' => Beginning::LineFeed,
        b'\r' => Beginning::Return,
        b'=' | b'<' | b'>' | b'!' | b'+' | b'-' | b'*' | b'^' | b'(' | b')' | b',' => {
            Beginning::Sign
        }
        _ => Beginning::Nothing,
    }
}
