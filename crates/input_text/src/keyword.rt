//! The words with which lines begin, and those for kinds.

ghost use Rattle.std.specs.Prelude.{◌≡◌};
ghost use Rattle.input_text.specs.Reading as spec;

use sial_syntax::Kind;

/// The word with which a line begins.
#[derive(Clone, Copy)]
pub enum Keyword {
    Const,
    Segments,
    Subsegment,
    Scalar,
    Block,
}

/// The keyword that is spelled so.
pub fn keyword_of(word: &[u8]) -> Option<Keyword>
    ensures { result ≡ spec.keyword_of word.now }
{
    if word == b"const".as_slice() {
        return Some(Keyword::Const);
    }
    if word == b"segments".as_slice() {
        return Some(Keyword::Segments);
    }
    if word == b"subsegment".as_slice() {
        return Some(Keyword::Subsegment);
    }
    if word == b"scalar".as_slice() {
        return Some(Keyword::Scalar);
    }
    if word == b"block".as_slice() {
        return Some(Keyword::Block);
    }
    None
}

/// The kind that is spelled so.
pub fn kind_of(word: &[u8]) -> Option<Kind>
    ensures { result ≡ spec.kind_of word.now }
{
    if word == b"ao".as_slice() {
        return Some(Kind::Ao);
    }
    if word == b"mo".as_slice() {
        return Some(Kind::Mo);
    }
    if word == b"moa".as_slice() {
        return Some(Kind::Moa);
    }
    if word == b"mob".as_slice() {
        return Some(Kind::Mob);
    }
    None
}
