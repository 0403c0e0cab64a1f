//! The parser.

ghost use Rattle.std.specs.Prelude.{◌≡◌, ◌≤◌, true, false, Ok, Err, length, IfOk, IfErr};
ghost use Rattle.sial_lexer.specs.Cut.{AreInOrder};
ghost use Rattle.sial_lexer.specs.Faults.{IsFaultOf};
ghost use Rattle.sial_lexer.specs.Pieces.{most_source};
ghost use Rattle.sial_lexer.specs.declared.fault.LexFault.{LexFault};
ghost use Rattle.sial_syntax.specs.Proper.{IsProper};
ghost use Rattle.sial_syntax.specs.Tree.{Tree, tree};
ghost use Rattle.sial_parser.specs.Answers.{Gives, Fails};
ghost use Rattle.sial_parser.specs.Parsing as spec;
ghost use Rattle.sial_parser.specs.Whole as whole;
ghost use Rattle.sial_parser.specs.Whole.{parse_of};
ghost use Rattle.sial_parser.specs.Words as words;
ghost use Rattle.sial_parser.specs.Words.{IsTextOf};
ghost use Rattle.sial_parser.specs.declared.fault.ParseFault.TheVariants.{Lex};

use crate::fault::ParseFault;
use crate::program::program;
use crate::word::Word;
use crate::words::words_of;
use sial_lexer::{LexFault, LexKind, Tokens, lex};
use sial_syntax::Program;
use std::alloc::Global;

/// The tree of a program's text, or its first fault, in time linear in the text's length.
pub fn parse(alloc: Global, text: &[u8]) -> Result<Program, ParseFault>
    // What is given stands with the text and is proper, and it is given wherever a tree stands with it and memory is found.
    ensures found { IfOk result (λ p. IsTextOf text.now (tree p)) }
    ensures only { (p : Tree) → IsTextOf text.now p → Gives tree result (Ok p) }
    ensures proper { IfOk result (λ p. IsProper (tree p)) }

    // What is refused stands with no tree, unless memory ran out.
    ensures refused { IfErr result (λ fault. whole.IsRefused text.now fault) }

    // What the lexer refuses is refused before all else.
    ensures lex { (fault : LexFault) → IsFaultOf text.now fault → Gives tree result (Err (Lex fault)) }

    // What a reading from the first word on gives.
    ensures exact { Gives tree result (parse_of text.now) }
{
    read(alloc, text)
}

// The same, by the text's tokens.
fn read(alloc: Global, text: &[u8]) -> Result<Program, ParseFault>
    ensures { Gives tree result (parse_of text.now) }
{
    match lex(alloc, text) {
        Ok(tokens) => of_tokens(alloc, text, &tokens),
        Err(fault) => Err(refused(fault)),
    }
}

// What the lexer's fault is here.
fn refused(fault: LexFault) -> ParseFault
    ensures { result ≡ whole.refused fault.kind fault }
{
    match fault.kind {
        LexKind::OutOfMemory => ParseFault::OutOfMemory,
        _ => ParseFault::Lex(fault),
    }
}

// The tree of a text's tokens.
fn of_tokens(alloc: Global, text: &[u8], tokens: &Tokens) -> Result<Program, ParseFault>
    requires short { length text.now ≤ most_source }
    requires in_order { AreInOrder 0 (length text.now) tokens.now }
    ensures { Gives tree result (spec.program_of (words.words_of text.now tokens.now)) }
{
    let words = words_of(alloc, text, tokens)?;
    of_words(alloc, words.as_slice())
}

// The tree of words.
fn of_words(alloc: Global, words: &[Word]) -> Result<Program, ParseFault>
    ensures { Gives tree result (spec.program_of words.now) }
{
    match program(alloc, true, words) {
        Ok(program) => Ok(program),
        Err(ParseFault::OutOfMemory) => Err(ParseFault::OutOfMemory),
        Err(fault) => Err(last_fault(alloc, fault, words)),
    }
}

// A fault, unless another is left where any name may be called.
fn last_fault(alloc: Global, fault: ParseFault, words: &[Word]) -> ParseFault
    ensures { Fails result (spec.last_fault fault (spec.read_program false words.now)) }
{
    match program(alloc, false, words) {
        Ok(_) => fault,
        Err(other) => other,
    }
}
