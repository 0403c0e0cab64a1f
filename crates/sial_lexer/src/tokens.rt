//! The tokens of a text.

ghost use Rattle.std.specs.Prelude.{◌≡◌, ◌<◌, ◌^◌, Some, length, slice_get};

use crate::token::Token;
use std::marker::Model;

/// The tokens of a text in order, which contracts see as their list.
#[derive(Drop)]
pub struct Tokens {
    tokens: Vec<Token>,
}

impl Model for Tokens {
    ghost use Rattle.std.specs.Prelude.{List, ◌<◌, ◌^◌, length};
    ghost use Rattle.sial_lexer.specs.declared.token.Token.{Token};

    ghost Value = { List Token };

    ghost view = { λ t. t.tokens.items };

    ghost invariant = { λ t. length t.tokens.items < 2 ^ 32 };
}

impl Tokens {
    // The tokens of a list.
    pub fn from_vec(tokens: Vec<Token>) -> Tokens
        requires { length tokens.items < 2 ^ 32 }
        ensures { result ≡ tokens.items }
    {
        Tokens { tokens }
    }

    /// How many there are.
    pub fn len(&self) -> u32
        ensures { result ≡ length self.now }
    {
        self.tokens.len() as u32
    }

    /// The token at a place, counted from 0.
    pub fn token(&self, place: u32) -> Token
        requires { place < length self.now }
        ensures { slice_get self.now place ≡ Some result }
    {
        self.tokens[place as usize]
    }
}
