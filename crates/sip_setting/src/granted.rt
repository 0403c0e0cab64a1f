//! A program that may run, with what an input gives it.

use index_spaces::{Spaces, Start};
use sial_syntax::{Classes, Program};

/// A program that the rules granted, with the classes of its scalars and the sides of its local arrays, its spaces and its start values.
#[derive(Drop)]
pub struct Granted {
    pub program: Program,
    pub classes: Classes,
    pub spaces: Spaces,
    pub start: Start,
}
