//! A worker's own blocks.

use block_seats::Seats;
use exec_names::Member;
use std::marker::Model;

/// The blocks of static and local arrays and of temps that a worker holds. They give their slots back by `close`.
pub struct Blocks {
    pub(crate) seats: Seats,
    pub(crate) tuples: Vec<Vec<Member>>,
    pub(crate) locals_at: usize,
    pub(crate) temps_at: usize,
}

impl Model for Blocks {
    ghost use Rattle.exec_blocks.specs.Kept.{Kept};
    ghost use Rattle.exec_blocks.specs.Tuples.{tuples_of};

    ghost Value = { Kept };

    ghost view = { λ b. record { seats = b.seats; tuples = tuples_of b.tuples.items; locals_at = b.locals_at; temps_at = b.temps_at } };
}
