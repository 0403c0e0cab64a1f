//! The tokens found so far.

ghost use Rattle.std.specs.Prelude.{◌≡◌, ◌+◌, ◌<◌, ◌≤◌, ◌^◌, length, IfOk, OnOk};
ghost use Rattle.sial_lexer.specs.Cut as cut;
ghost use Rattle.sial_lexer.specs.Reading as spec;

use crate::fault::LexFault;
use crate::front::front_of;
use crate::piece::{Piece, PieceKind};
use crate::token::{Token, TokenKind};
use crate::tokens::Tokens;
use std::alloc::{AllocError, Global};

/// The tokens found so far, and the place behind them.
#[derive(Drop)]
pub struct Scan {
    tokens: Vec<Token>,
    at: usize,
    line: u32,
    /// Whether a token stands on the line, which then owes a line end.
    owed: bool,
}

impl Scan {
    /// Nothing found yet.
    pub fn new(alloc: Global) -> Scan
        ensures { spec.seen result ≡ spec.nothing }
    {
        Scan {
            tokens: Vec::new(alloc),
            at: 0,
            line: 1,
            owed: false,
        }
    }

    /// Takes the piece at the front of a rest, and gives what is left.
    pub fn step<'a>(&mut self, rest: &'a [u8]) -> Result<&'a [u8], LexFault>
        requires at { self.old.at + length rest.now < 2 ^ 31 }
        requires line { self.old.line < 2 ^ 31 }

        ensures exact { spec.Gives (λ left. (spec.seen self.new, left.now)) result (spec.step (spec.seen self.old) rest.now) }
        ensures at { IfOk result (λ left. self.new.at + length left.now ≡ self.old.at + length rest.now) }
        ensures line { OnOk result (self.new.line ≤ self.old.line + 1) }
        ensures tokens { OnOk result (length self.new.tokens.items ≤ length self.old.tokens.items + 1) }
    {
        match front_of(rest) {
            Ok(piece) => {
                self.accept(piece)?;
                let (_, left) = rest.split_at(piece.len);
                Ok(left)
            }
            Err(kind) => Err(LexFault {
                line: self.line,
                kind,
            }),
        }
    }

    /// All tokens, where the text ends here.
    pub fn finish(self) -> Result<Tokens, LexFault>
        requires at { self.at < 2 ^ 31 }
        requires few { length self.tokens.items < 2 ^ 31 }
        ensures { spec.Gives (λ tokens. tokens) result (Ok (spec.ended (spec.seen self))) }
    {
        let mut scan = self;
        scan.end_line(0)?;
        Ok(Tokens::from_vec(scan.tokens))
    }

    // Adds the token of a piece, if it has one.
    fn accept(&mut self, piece: Piece) -> Result<(), AllocError>
        requires at { self.old.at + piece.len < 2 ^ 31 }
        requires line { self.old.line < 2 ^ 31 }
        ensures ok { OnOk result (spec.seen self.new ≡ spec.accepted (spec.seen self.old) piece) }
        ensures tokens { OnOk result (length self.new.tokens.items ≤ length self.old.tokens.items + 1) }
    {
        match piece.kind {
            PieceKind::Blank => {}
            PieceKind::Comment => {}
            PieceKind::LineBreak => {
                self.end_line(piece.len)?;
                self.line += 1;
                self.owed = false;
            }
            PieceKind::Token(kind) => {
                self.push(kind, piece.len)?;
                self.owed = true;
            }
        }
        self.at += piece.len;
        Ok(())
    }

    // Adds the line end that is owed.
    fn end_line(&mut self, len: usize) -> Result<(), AllocError>
        requires { self.old.at + len < 2 ^ 31 }
        ensures { OnOk result (spec.seen self.new ≡ spec.with_line_end (spec.seen self.old) len) }
    {
        if self.owed {
            self.push(TokenKind::LineEnd, len)?;
        }
        Ok(())
    }

    // Adds the token that begins here.
    fn push(&mut self, kind: TokenKind, len: usize) -> Result<(), AllocError>
        requires { self.old.at + len < 2 ^ 31 }
        ensures { OnOk result (spec.seen self.new ≡ spec.with_token (spec.seen self.old) kind len) }
    {
        let token = Token {
            kind,
            start: self.at as u32,
            end: (self.at + len) as u32,
            line: self.line,
        };
        Ok(self.tokens.push(token)?)
    }
}
