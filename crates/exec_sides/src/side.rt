//! Right sides whose operands were read.

use crate::seen::Seen;
use sial_syntax::Bin;

/// An operand: a number, or a block.
#[derive(Clone, Copy)]
pub enum Term<'a> {
    Number(u64),
    Block(Seen<'a>),
}

/// A right side: one operand, or two.
#[derive(Clone, Copy)]
pub enum Side<'a> {
    Alone(Term<'a>),
    Joined(Term<'a>, Bin, Term<'a>),
}
