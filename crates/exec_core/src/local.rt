//! What one worker has.

use exec_blocks::Blocks;
use exec_control::Control;
use exec_scalars::Scalars;
use std::marker::Model;

/// Where one worker is in its program, its scalars, its own blocks, and which distributed arrays are created. It gives its
/// slots back by `close`. No call after its opening takes memory.
pub struct Local {
    pub(crate) control: Control,
    pub(crate) scalars: Scalars,
    pub(crate) blocks: Blocks,
    pub(crate) created: Vec<bool>,
}

impl Model for Local {
    ghost use Rattle.exec_core.specs.Parts.{Parts};

    ghost Value = { Parts };

    ghost view = { λ l. record { control = l.control; scalars = l.scalars; blocks = l.blocks; created = l.created.items } };
}
