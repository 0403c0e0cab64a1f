//! The words of a text.

ghost use Rattle.std.specs.Prelude.{◌≡◌, ◌-◌, ◌≤◌, ◌==◌, length, IfOk};
ghost use Rattle.std.specs.List.{count_by, slice_range};
ghost use Rattle.sial_lexer.specs.Characters as lexer;
ghost use Rattle.sial_lexer.specs.Cut.{AreInOrder};
ghost use Rattle.sial_lexer.specs.Pieces.{most_source};
ghost use Rattle.sial_parser.specs.Words as spec;

use crate::keyword::keyword_of;
use crate::sign::sign_of;
use crate::word::{Symbol, Word};
use sial_lexer::{Token, TokenKind, Tokens};
use sial_syntax::Text;
use std::alloc::{AllocError, Global};

/// A word for each token, and the end of the text.
#[tactic(auto, using(crate::proofs::AnswerLemmas::token_within, crate::proofs::AnswerLemmas::taken_more))]
pub fn words_of(alloc: Global, text: &[u8], tokens: &Tokens) -> Result<Vec<Word>, AllocError>
    requires short { length text.now ≤ most_source }
    requires in_order { AreInOrder 0 (length text.now) tokens.now }
    ensures { IfOk result (λ words. words.items ≡ spec.words_of text.now tokens.now) }
{
    let mut words = Vec::new(alloc);
    for place in 0..tokens.len() {
        let word = word_of(alloc, text, tokens.token(place))?;
        words.push(word)?;
    }
    words.push(end_of(text))?;
    Ok(words)
}

// The end of a text.
fn end_of(text: &[u8]) -> Word
    requires { length text.now ≤ most_source }
    ensures { result ≡ record { line = spec.last_line text.now; symbol = Symbol.End } }
{
    let feeds = line_feeds(text);
    Word {
        line: 1 + feeds as u32,
        symbol: Symbol::End,
    }
}

// How many line feeds a text has.
fn line_feeds(text: &[u8]) -> usize
    ensures value { result ≡ count_by (λ b. b == 10) text.now }
    ensures within { result ≤ length text.now }
{
    text.iter().filter(|b| **b == b'\n').count()
}

// The word of a token.
fn word_of(alloc: Global, text: &[u8], token: Token) -> Result<Word, AllocError>
    requires { (token.start ≤ token.end) × (token.end ≤ length text.now) }
    ensures { IfOk result (λ word. word ≡ spec.word_of text.now token) }
{
    let bytes = &text[token.start as usize..token.end as usize];
    let symbol = symbol_of(alloc, token.kind, bytes)?;
    Ok(Word {
        line: token.line,
        symbol,
    })
}

// What a token of some bytes says.
fn symbol_of(alloc: Global, kind: TokenKind, bytes: &[u8]) -> Result<Symbol, AllocError>
    ensures { IfOk result (λ symbol. symbol ≡ spec.symbol_of kind bytes.now) }
{
    match kind {
        TokenKind::Name => name_or_key(alloc, bytes),
        TokenKind::Number { value } => Ok(Symbol::Number(value)),
        TokenKind::Quoted => Ok(Symbol::Quoted(Text::from_slice(alloc, between(bytes))?)),
        TokenKind::Sign => Ok(sign_or_end(bytes)),
        TokenKind::LineEnd => Ok(Symbol::LineEnd),
    }
}

// What stands between the first byte and the last.
fn between(bytes: &[u8]) -> &[u8]
    ensures { result.now ≡ slice_range bytes.now 1 (length bytes.now - 1) }
{
    match bytes {
        [_, inner @ .., _] => inner,
        _ => &[],
    }
}

// A sign; every spelling of a sign token is one.
fn sign_or_end(bytes: &[u8]) -> Symbol
    ensures { result ≡ spec.sign_or_end (spec.entry_of spec.signs bytes.now) }
{
    match sign_of(bytes) {
        Some(sign) => Symbol::Sign(sign),
        None => Symbol::LineEnd,
    }
}

// A name or a reserved word, in small letters.
fn name_or_key(alloc: Global, bytes: &[u8]) -> Result<Symbol, AllocError>
    ensures { IfOk result (λ symbol. symbol ≡ spec.name_or_key (lexer.folded bytes.now) (spec.entry_of spec.keywords (lexer.folded bytes.now))) }
{
    let name = folded(alloc, bytes)?;
    match keyword_of(name.as_slice()) {
        Some(keyword) => Ok(Symbol::Key(keyword)),
        None => Ok(Symbol::Name(Text::from_vec(name))),
    }
}

// Bytes with capital letters made small.
fn folded(alloc: Global, bytes: &[u8]) -> Result<Vec<u8>, AllocError>
    ensures { IfOk result (λ name. name.items ≡ lexer.folded bytes.now) }
{
    bytes.to_ascii_lowercase(alloc)
}
