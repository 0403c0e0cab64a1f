//! Signs.

ghost use Rattle.std.specs.Prelude.{◌≡◌};
ghost use Rattle.sial_parser.specs.Words.{entry_of, signs};

use crate::spelling::look_up;

/// A sign.
#[derive(Clone, Copy)]
pub enum Sign {
    /// `=`
    Equals,
    /// `+=`
    PlusEquals,
    /// `-=`
    MinusEquals,
    /// `*=`
    TimesEquals,
    /// `<`
    Less,
    /// `<=`
    LessEqual,
    /// `>`
    Greater,
    /// `>=`
    GreaterEqual,
    /// `==`
    EqualEqual,
    /// `!=`
    NotEqual,
    /// `+`
    Plus,
    /// `-`
    Minus,
    /// `*`
    Times,
    /// `^`
    Caret,
    /// `(`
    Open,
    /// `)`
    Close,
    /// `,`
    Comma,
}

const SIGNS: [(&[u8], Sign); 17] = [
    (b"=", Sign::Equals),
    (b"+=", Sign::PlusEquals),
    (b"-=", Sign::MinusEquals),
    (b"*=", Sign::TimesEquals),
    (b"<", Sign::Less),
    (b"<=", Sign::LessEqual),
    (b">", Sign::Greater),
    (b">=", Sign::GreaterEqual),
    (b"==", Sign::EqualEqual),
    (b"!=", Sign::NotEqual),
    (b"+", Sign::Plus),
    (b"-", Sign::Minus),
    (b"*", Sign::Times),
    (b"^", Sign::Caret),
    (b"(", Sign::Open),
    (b")", Sign::Close),
    (b",", Sign::Comma),
];

/// The sign that is spelled so.
pub fn sign_of(bytes: &[u8]) -> Option<Sign>
    ensures { result ≡ entry_of signs bytes.now }
{
    look_up(SIGNS.as_slice(), bytes)
}
