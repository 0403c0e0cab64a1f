//! Why a worker does not go on.

use sial_meaning::Trap;

/// Why a step led nowhere.
#[derive(Clone, Copy, Debug, PartialEq, Eq)]
pub enum Halt {
    /// A trap of the program.
    Trapped(Trap),
    /// No memory for one more pardo in progress.
    OutOfMemory,
}
