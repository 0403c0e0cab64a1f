//! The tokens of a text, each with its kind, its bytes and its line, or the first fault.
#![tactic(auto)]

mod beginning;
mod fault;
mod front;
mod lexer;
mod number;
mod piece;
mod runs;
mod scan;
mod sign;
mod token;
mod tokens;

pub use beginning::Beginning;
pub use fault::{LexFault, LexKind};
pub use lexer::lex;
pub use piece::{Piece, PieceKind};
pub use token::{Token, TokenKind};
pub use tokens::Tokens;
