//! The lexer.

ghost use Rattle.std.specs.Prelude.{◌≡◌, List, Ok, Err, length, IfOk, IfErr};
ghost use Rattle.std.specs.List.{AllByRecursion};
ghost use Rattle.sial_lexer.specs.Cut.{HasTokens, StandsIn, AreInOrder};
ghost use Rattle.sial_lexer.specs.Faults.{IsFaultOf, IsCause};
ghost use Rattle.sial_lexer.specs.Reading as spec;
ghost use Rattle.sial_lexer.specs.declared.fault.LexFault.{LexFault};
ghost use Rattle.sial_lexer.specs.declared.token.Token.{Token};

use crate::fault::{LexFault, LexKind};
use crate::scan::Scan;
use crate::tokens::Tokens;
use std::alloc::Global;

const MOST_SOURCE: usize = 1_048_576;

/// The tokens of a text, or its first fault, in time linear in its length.
pub fn lex(alloc: Global, text: &[u8]) -> Result<Tokens, LexFault>
    // What is given are the text's tokens, and they are given wherever it has tokens and memory is found.
    ensures found { IfOk result (λ tokens. HasTokens text.now tokens) }
    ensures only { (tokens : List Token) → HasTokens text.now tokens → spec.Gives (λ t. t) result (Ok tokens) }

    // What is refused is refused for the text's first fault, and each text with a fault is.
    ensures fault { IfErr result (λ fault. IsCause text.now fault.kind fault) }
    ensures only_fault { (fault : LexFault) → IsFaultOf text.now fault → spec.Gives (λ t. t) result (Err fault) }

    ensures in_order { IfOk result (λ tokens. AreInOrder 0 (length text.now) tokens) }
    ensures spelled { IfOk result (λ tokens. AllByRecursion (StandsIn text.now) tokens) }

    // What a reading from the front gives.
    ensures exact { spec.Gives (λ t. t) result (spec.lex_of text.now) }
{
    read(alloc, text)
}

// The tokens of a text, piece by piece.
fn read(alloc: Global, text: &[u8]) -> Result<Tokens, LexFault>
    ensures exact { spec.Gives (λ t. t) result (spec.lex_of text.now) }
{
    if text.len() > MOST_SOURCE {
        return Err(LexFault {
            line: 0,
            kind: LexKind::TooLong,
        });
    }
    let mut scan = Scan::new(alloc);
    let mut rest = text;
    for turn in 0..text.len() {
        if rest.is_empty() {
            break;
        }
        rest = scan.step(rest)?;
    }
    scan.finish()
}
